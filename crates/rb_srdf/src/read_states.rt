// The states of groups, one by one.
ghost use Rattle.std.specs.Prelude.{◌≡◌, ◌≢◌, ◌++◌, ◌∷◌, [], false, codes, IfOk, IsOk, Err};
ghost use Rattle.std.specs.List.{list_any};
ghost use Rattle.rb_tags.specs.Elements.{attribute, as_element};
ghost use Rattle.rb_tags.specs.Words.{words};
ghost use Rattle.rb_result.specs.Steps.{Gives};
ghost use Rattle.rb_srdf.specs.declared.faults.SrdfFaultKind.TheVariants.{Memory};
ghost use Rattle.rb_srdf.specs.Names.{checked};
ghost use Rattle.rb_srdf.specs.StateNames.{is_state, name_of_state};
ghost use Rattle.rb_srdf.specs.ReadStates.{number_in, numbers_in, numbers_said, value_in, values_after, all_named, joints_inside, new_state, state_of, name_of_read, as_name};

use crate::faults::SrdfFaultKind;
use crate::names::name_in;
use crate::srdf::{GroupState, JointNumbers, Numbers, Values};
use crate::state_names::StateNames;
use rb_num::Iv;
use rb_tags::{ElementRef, Text, is_child, next_word};
use rb_text::read_bracket;
use std::alloc::Global;

/// The group and the name of a state, in the words of a file.
#[derive(Clone, Copy)]
pub struct NameRef<'a> {
    pub group: &'a str,
    pub name: &'a str,
}

/// The bracket of a word.
#[tactic(auto, unfolding(crate::specs::ReadStates::number_in))]
fn number_in(word: &[u8]) -> Result<Iv, SrdfFaultKind>
    ensures exact { result ≡ number_in word.now }
    ensures takes_no_memory { result ≢ Err Memory }
{
    match read_bracket(word) {
        Ok(number) => Ok(number),
        Err(_) => Err(SrdfFaultKind::BadNumber),
    }
}

/// Whether the words of a text are numbers, and there is one at least.
fn check_numbers(text: &[u8]) -> Result<(), SrdfFaultKind>
    ensures exact { result ≡ checked (numbers_in (words text.now)) }
    ensures takes_no_memory { result ≢ Err Memory }
{
    let Some(_) = next_word(text) else {
        return Err(SrdfFaultKind::BadNumber);
    };
    let mut rest = text;
    while let Some((word, behind)) = next_word(rest) {
        number_in(word)?;
        rest = behind;
    }
    Ok(())
}

/// The numbers of the words of a text.
fn read_numbers(alloc: Global, text: &[u8]) -> Result<Numbers, SrdfFaultKind>
    ensures { Gives Memory (λ numbers. numbers) result (numbers_in (words text.now)) }
{
    let Some(_) = next_word(text) else {
        return Err(SrdfFaultKind::BadNumber);
    };
    let mut numbers = Vec::new(alloc);
    let mut rest = text;
    while let Some((word, behind)) = next_word(rest) {
        numbers.push(number_in(word)?)?;
        rest = behind;
    }
    Ok(Numbers { numbers })
}

/// Whether the joint that an element names has numbers.
#[tactic(auto, unfolding(crate::specs::ReadStates::value_in))]
fn check_value(element: ElementRef<'_>) -> Result<(), SrdfFaultKind>
    ensures exact { result ≡ checked (value_in (as_element element.entry)) }
    ensures takes_no_memory { result ≢ Err Memory }
{
    let _ = name_in("name", element)?;
    match element.attribute("value") {
        Some(text) => check_numbers(text.as_bytes()),
        None => Err(SrdfFaultKind::BadNumber),
    }
}

/// The joint that an element names, and its numbers.
#[tactic(auto, unfolding(crate::specs::ReadStates::value_in))]
fn read_value(alloc: Global, element: ElementRef<'_>) -> Result<JointNumbers, SrdfFaultKind>
    ensures { Gives Memory (λ value. value) result (value_in (as_element element.entry)) }
{
    let joint = name_in("name", element)?;
    let Some(text) = element.attribute("value") else {
        return Err(SrdfFaultKind::BadNumber);
    };
    let numbers = read_numbers(alloc, text.as_bytes())?;
    Ok(JointNumbers {
        joint: Text::copy(alloc, joint)?,
        numbers,
    })
}

/// Whether each joint of a state has a name.
fn check_joints(element: ElementRef<'_>) -> Result<(), SrdfFaultKind>
    ensures exact { result ≡ all_named (joints_inside (as_element element.entry)) }
    ensures takes_no_memory { result ≢ Err Memory }
{
    let mut rest = element.inside;
    while let [tag, behind @ ..] = rest {
        if is_child("joint", element.tag.depth, tag) {
            let _ = name_in("name", ElementRef::new(tag, behind))?;
        }
        rest = behind;
    }
    Ok(())
}

/// Whether each joint of a state has numbers.
fn check_values(element: ElementRef<'_>) -> Result<(), SrdfFaultKind>
    ensures exact { result ≡ checked (values_after [] (joints_inside (as_element element.entry))) }
    ensures takes_no_memory { result ≢ Err Memory }
{
    let mut rest = element.inside;
    while let [tag, behind @ ..] = rest {
        if is_child("joint", element.tag.depth, tag) {
            check_value(ElementRef::new(tag, behind))?;
        }
        rest = behind;
    }
    Ok(())
}

/// The joints of a state with their numbers.
fn read_values(alloc: Global, element: ElementRef<'_>) -> Result<Values, SrdfFaultKind>
    ensures { Gives Memory (λ values. values) result (values_after [] (joints_inside (as_element element.entry))) }
{
    let mut values = Vec::new(alloc);
    let mut rest = element.inside;
    while let [tag, behind @ ..] = rest {
        if is_child("joint", element.tag.depth, tag) {
            values.push(read_value(alloc, ElementRef::new(tag, behind))?)?;
        }
        rest = behind;
    }
    Ok(Values { values })
}

/// Whether a state is none of these.
#[tactic(auto, unfolding(crate::specs::ReadStates::new_state))]
fn new_state<'a>(names: &StateNames<'a>, group: &'a str, name: &'a str) -> Result<(), SrdfFaultKind>
    ensures exact { result ≡ new_state names.now group.now name.now }
    ensures takes_no_memory { result ≢ Err Memory }
    ensures new { IfOk result (λ _. list_any (is_state group.now name.now) names.now ≡ false) }
{
    if names.has(group, name) {
        return Err(SrdfFaultKind::NameTwice);
    }
    Ok(())
}

/// The group and the name of a state that can be read.
#[tactic(auto, unfolding(crate::specs::ReadStates::state_of))]
fn check_state<'a>(
    names: &StateNames<'a>,
    element: ElementRef<'a>,
) -> Result<NameRef<'a>, SrdfFaultKind>
    ensures gives { Gives Memory as_name result (name_of_read (state_of names.now (as_element element.entry))) }
    ensures takes_no_memory { result ≢ Err Memory }
    ensures new { IfOk result (λ name. list_any (is_state name.group.now name.name.now) names.now ≡ false) }
{
    let name = name_in("name", element)?;
    let group = name_in("group", element)?;
    check_joints(element)?;
    new_state(names, group, name)?;
    check_values(element)?;
    Ok(NameRef { group, name })
}

/// The state of an element, whose name is put behind those of a set.
#[tactic(auto, unfolding(crate::specs::ReadStates::state_of))]
pub(crate) fn read_state<'a>(
    alloc: Global,
    names: &mut StateNames<'a>,
    element: ElementRef<'a>,
) -> Result<GroupState, SrdfFaultKind>
    ensures gives { Gives Memory (λ state. state) result (state_of names.old (as_element element.entry)) }
    ensures names { IfOk result (λ state. names.new ≡ names.old ++ name_of_state state ∷ []) }
    ensures memory { result ≡ Err Memory → IsOk (state_of names.old (as_element element.entry)) }
{
    let NameRef { group, name } = check_state(names, element)?;
    names.add(group, name)?;
    Ok(GroupState {
        name: Text::copy(alloc, name)?,
        group: Text::copy(alloc, group)?,
        place: element.tag.place,
        values: read_values(alloc, element)?,
    })
}
