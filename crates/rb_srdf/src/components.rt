// Numbers of groups by which those that hold one another have one number: the strongly connected components, by Tarjan's walk.
use crate::rows::{Row, row_at};
use std::alloc::{AllocError, Global};

/// What is known of a group.
#[derive(Clone, Copy)]
struct Visit {
    /// When the walk came to it, from 1 on, and 0 before.
    entered: u32,
    /// When the walk came to the earliest open group that is known to be held by it.
    earliest: u32,
    /// How many of those that it holds were looked at.
    looked_at: usize,
    /// The number of its component, once that is closed.
    component: Option<usize>,
}

const NOT_ENTERED: Visit = Visit {
    entered: 0,
    earliest: 0,
    looked_at: 0,
    component: None,
};

/// A walk through all groups, each of which is entered once.
#[derive(Drop)]
struct Walk {
    visits: Vec<Visit>,
    /// The way from the group where the walk began to where it is.
    path: Vec<u32>,
    /// The groups whose components are not closed, in the order in which they were entered.
    open: Vec<u32>,
    entered: u32,
    closed: usize,
}

impl Walk {
    fn new(alloc: Global, groups: usize) -> Result<Walk, AllocError> {
        Ok(Walk {
            visits: vec![in alloc; NOT_ENTERED; groups]?,
            path: Vec::new(alloc),
            open: Vec::new(alloc),
            entered: 0,
            closed: 0,
        })
    }

    fn visit(&self, number: u32) -> Visit {
        self.visits
            .get(number as usize)
            .copied()
            .unwrap_or(NOT_ENTERED)
    }

    fn enter(&mut self, number: u32) -> Result<(), AllocError> {
        self.entered = self.entered.saturating_add(1);
        let now = self.entered;
        if let Some(visit) = self.visits.get_mut(number as usize) {
            visit.entered = now;
            visit.earliest = now;
        }
        self.path.push(number)?;
        self.open.push(number)?;
        Ok(())
    }

    /// The next group that this one holds.
    fn next_held(&mut self, rows: &[Row], number: u32) -> Option<u32> {
        let visit = self.visits.get_mut(number as usize)?;
        let held = *row_at(rows, number).get(visit.looked_at)?;
        visit.looked_at = visit.looked_at.saturating_add(1);
        Some(held)
    }

    fn note_earlier(&mut self, number: u32, entered: u32) {
        if let Some(visit) = self.visits.get_mut(number as usize) {
            visit.earliest = visit.earliest.min(entered);
        }
    }

    /// Looks at a group that this one holds.
    fn look_at(&mut self, number: u32, held: u32) -> Result<(), AllocError> {
        let seen = self.visit(held);
        if seen.entered == 0 {
            self.enter(held)?;
        } else if seen.component.is_none() {
            self.note_earlier(number, seen.entered);
        }
        Ok(())
    }

    /// Closes the component of the open groups from this one on.
    fn close(&mut self, number: u32) {
        let component = Some(self.closed);
        self.closed = self.closed.saturating_add(1);
        while let Some(last) = self.open.pop() {
            if let Some(visit) = self.visits.get_mut(last as usize) {
                visit.component = component;
            }
            if last == number {
                return;
            }
        }
    }

    /// Goes back from a group, all of whose groups were looked at.
    fn leave(&mut self, number: u32) {
        let visit = self.visit(number);
        let _ = self.path.pop();
        if visit.earliest == visit.entered {
            self.close(number);
        }
        if let Some(holder) = self.path.last().copied() {
            self.note_earlier(holder, visit.earliest);
        }
    }

    /// Walks from a group until it is left, in at most so many steps.
    fn walk(&mut self, rows: &[Row], from: u32, steps: usize) -> Result<(), AllocError> {
        self.enter(from)?;
        for _ in 0..steps {
            let Some(number) = self.path.last().copied() else {
                return Ok(());
            };
            match self.next_held(rows, number) {
                Some(held) => self.look_at(number, held)?,
                None => self.leave(number),
            }
        }
        Ok(())
    }
}

/// More steps than a walk takes: it looks at each held group once, and leaves each group once.
fn step_limit(rows: &[Row]) -> usize {
    let mut steps = rows.len();
    for row in rows {
        steps = steps.saturating_add(row.as_slice().len());
    }
    steps
}

/// The number of the component of each group, in the order in which they are closed, so that a group never has a less one than those that it
/// holds. This makes the callers fast: they rely on none of it, and are right with any numbers.
pub(crate) fn components(alloc: Global, rows: &[Row]) -> Result<Vec<usize>, AllocError> {
    let steps = step_limit(rows);
    let mut walk = Walk::new(alloc, rows.len())?;
    let mut number = 0;
    for _ in rows {
        if walk.visit(number).entered == 0 {
            walk.walk(rows, number, steps)?;
        }
        number = number.saturating_add(1);
    }
    walk.visits
        .iter()
        .map(|visit| visit.component.unwrap_or(0))
        .collect(alloc)
}
