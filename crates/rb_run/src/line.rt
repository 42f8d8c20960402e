ghost use Rattle.std.specs.Prelude.{◌≡◌, ◌≤◌, ◌+◌, ◌*◌, ◌++◌, length, codes, decimal};
ghost use Rattle.rb_num.specs.Interval.{Interval};
ghost use Rattle.rb_tree.specs.Columns.{column_count, entry_count};
ghost use Rattle.rb_tree.specs.State.{Fits};
ghost use Rattle.rb_work.specs.Names.{second_of, text_of};
ghost use Rattle.rb_rows.specs.Faults.{field_text};
ghost use Rattle.rb_run.specs.Line.{refusal_word, word_of, refusal_text, cause_text, is_read, is_done, number_text, numbers_text, state_text, echo_text, line_of, echo_count, line_room};
ghost use Rattle.rb_run.specs.Slots.{IsSlotOf};
ghost use Rattle.rb_run.specs.declared.slot.Answer.TheVariants.{Idle};

use crate::job::Job;
use crate::slot::{Answer, Slot};
use crate::values::value_count;
use itoa::Buffer;
use rb_num::Iv;
use rb_rows::FieldFault;
use rb_text::Out;
use rb_tree::{Robot, State};
use rb_work::{Name, RowFault};

/// Puts a number in digits.
pub fn put_number(number: u64, out: &mut Out)
    requires { 20 ≤ out.old.spare }
    ensures bytes { out.new.bytes ≡ out.old.bytes ++ decimal number }
    ensures spare { out.new.spare + length (decimal number) ≡ out.old.spare }
    ensures short { length (decimal number) ≤ 20 }
{
    let mut digits = Buffer::new();
    out.put(digits.format(number).as_bytes());
}

/// Puts the second number of a name behind a point, where there is one.
fn put_second(j: u32, out: &mut Out)
    requires { 21 ≤ out.old.spare }
    ensures bytes { out.new.bytes ≡ out.old.bytes ++ second_of j }
    ensures spare { out.new.spare + length (second_of j) ≡ out.old.spare }
    ensures short { length (second_of j) ≤ 21 }
{
    if j != 0 {
        out.put(b".");
        put_number(u64::from(j), out);
    }
}

/// Puts the name of a quantity, as in `a[4]`.
#[tactic(auto, using(std::proofs::Common::append_assoc))]
fn put_name(name: Name, out: &mut Out)
    requires { 46 ≤ out.old.spare }
    ensures bytes { out.new.bytes ≡ out.old.bytes ++ text_of name }
    ensures spare { out.new.spare + length (text_of name) ≡ out.old.spare }
    ensures short { length (text_of name) ≤ 46 }
{
    out.put(name.kind.word().as_bytes());
    out.put(b"[");
    put_number(u64::from(name.i), out);
    put_second(name.j, out);
    out.put(b"]");
}

/// Puts a field fault, as in `NotNumber[3]`.
#[tactic(auto, using(std::proofs::Common::append_assoc))]
fn put_fault(fault: FieldFault, out: &mut Out)
    requires { 31 ≤ out.old.spare }
    ensures bytes { out.new.bytes ≡ out.old.bytes ++ field_text fault }
    ensures spare { out.new.spare + length (field_text fault) ≡ out.old.spare }
    ensures short { length (field_text fault) ≤ 31 }
{
    out.put(fault.kind.word().as_bytes());
    out.put(b"[");
    put_number(u64::from(fault.field), out);
    out.put(b"]");
}

/// Puts the name of what is refused, and of a pivot its interval.
#[tactic(auto, using(std::proofs::Common::append_assoc))]
fn put_refusal(fault: &RowFault, out: &mut Out)
    requires { 127 ≤ out.old.spare }
    ensures bytes { out.new.bytes ≡ out.old.bytes ++ refusal_text fault.now }
    ensures spare { out.new.spare + length (refusal_text fault.now) ≡ out.old.spare }
    ensures short { length (refusal_text fault.now) ≤ 127 }
{
    match fault {
        RowFault::Size { name } | RowFault::Range { name } | RowFault::NotUnit { name } => {
            put_name(*name, out);
        }
        RowFault::Pivot { name, iv } => {
            put_name(*name, out);
            out.put(b"=");
            out.put_iv(*iv);
        }
    }
}

/// Puts the cause for which a row has no values.
fn put_cause(answer: &Answer, out: &mut Out)
    requires { 127 ≤ out.old.spare }
    ensures bytes { out.new.bytes ≡ out.old.bytes ++ cause_text answer.now }
    ensures spare { out.new.spare + length (cause_text answer.now) ≡ out.old.spare }
    ensures short { length (cause_text answer.now) ≤ 127 }
{
    match answer {
        Answer::Idle | Answer::Done => {}
        Answer::Bad(fault) => put_fault(*fault, out),
        Answer::Refused(fault) => put_refusal(fault, out),
    }
}

fn refusal_word(fault: &RowFault) -> &'static [u8]
    ensures word { result.now ≡ refusal_word fault.now }
    ensures short { length result.now ≤ 7 }
{
    match fault {
        RowFault::Size { .. } => b"size",
        RowFault::Range { .. } => b"range",
        RowFault::NotUnit { .. } => b"notunit",
        RowFault::Pivot { .. } => b"pivot",
    }
}

fn word_of(answer: &Answer) -> &'static [u8]
    ensures word { result.now ≡ word_of answer.now }
    ensures short { length result.now ≤ 7 }
{
    match answer {
        Answer::Idle => b"",
        Answer::Done => b"ok",
        Answer::Bad(_) => b"field",
        Answer::Refused(fault) => refusal_word(fault),
    }
}

fn is_read(answer: &Answer) -> bool
    ensures { result ≡ is_read answer.now }
{
    !matches!(answer, Answer::Bad(_))
}

fn is_done(answer: &Answer) -> bool
    ensures { result ≡ is_done answer.now }
{
    matches!(answer, Answer::Done)
}

/// Puts the field of a number behind its comma.
#[tactic(auto, using(std::proofs::Common::append_assoc))]
fn put_field(told: bool, number: Iv, out: &mut Out)
    requires { 81 ≤ out.old.spare }
    ensures bytes { out.new.bytes ≡ out.old.bytes ++ number_text told number }
    ensures spare { out.new.spare + length (number_text told number) ≡ out.old.spare }
    ensures short { length (number_text told number) ≤ 81 }
{
    out.put(b",");
    if told {
        out.put_iv(number);
    }
}

/// Puts the fields of numbers.
fn put_numbers(told: bool, numbers: &[Iv], out: &mut Out)
    requires { 81 * length numbers.now ≤ out.old.spare }
    ensures bytes { out.new.bytes ≡ out.old.bytes ++ numbers_text told numbers.now }
    ensures spare { out.new.spare + length (numbers_text told numbers.now) ≡ out.old.spare }
    ensures short { length (numbers_text told numbers.now) ≤ 81 * length numbers.now }
{
    for number in numbers {
        put_field(told, *number, out);
    }
}

/// Puts the fields of the position.
fn put_entries(told: bool, count: usize, state: &State, out: &mut Out)
    requires count { count ≡ length state.now.q }
    requires room { 81 * count ≤ out.old.spare }
    ensures bytes { out.new.bytes ≡ out.old.bytes ++ numbers_text told state.now.q }
    ensures spare { out.new.spare + length (numbers_text told state.now.q) ≡ out.old.spare }
    ensures short { length (numbers_text told state.now.q) ≤ 81 * count }
{
    for place in 0..count {
        put_field(told, state.q(place), out);
    }
}

/// Puts the fields of the torques.
fn put_torques(told: bool, count: usize, state: &State, out: &mut Out)
    requires count { count ≡ length state.now.tau }
    requires room { 81 * count ≤ out.old.spare }
    ensures bytes { out.new.bytes ≡ out.old.bytes ++ numbers_text told state.now.tau }
    ensures spare { out.new.spare + length (numbers_text told state.now.tau) ≡ out.old.spare }
    ensures short { length (numbers_text told state.now.tau) ≤ 81 * count }
{
    for place in 0..count {
        put_field(told, state.tau(place), out);
    }
}

/// Puts the fields of a state.
#[tactic(auto, using(std::proofs::Common::append_assoc), unfolding(crate::specs::Line::state_text))]
fn put_state(told: bool, robot: &Robot, state: &State, out: &mut Out)
    requires fits { Fits robot.now state.now }
    requires room { 81 * (entry_count robot.now.bodies + 3 * column_count robot.now.bodies) ≤ out.old.spare }
    ensures bytes { out.new.bytes ≡ out.old.bytes ++ state_text told state.now }
    ensures spare { out.new.spare + length (state_text told state.now) ≡ out.old.spare }
    ensures short { length (state_text told state.now) ≤ 81 * (entry_count robot.now.bodies + 3 * column_count robot.now.bodies) }
{
    put_entries(told, robot.nq() as usize, state, out);
    put_numbers(told, state.speeds(), out);
    put_numbers(told, state.accelerations(), out);
    put_torques(told, robot.nv() as usize, state, out);
}

/// Puts the fields of the row's numbers, where they are asked for.
fn put_echo(job: &Job, slot: &Slot, out: &mut Out)
    requires slot { IsSlotOf job.now slot.now }
    requires room { 81 * echo_count job.now ≤ out.old.spare }
    ensures bytes { out.new.bytes ≡ out.old.bytes ++ echo_text job.now.echo slot.now }
    ensures spare { out.new.spare + length (echo_text job.now.echo slot.now) ≡ out.old.spare }
    ensures short { length (echo_text job.now.echo slot.now) ≤ 81 * echo_count job.now }
{
    if job.echo {
        put_state(is_read(&slot.answer), &job.robot, &slot.state, out);
    }
}

/// Puts the number of a row, its answer and its cause.
#[tactic(auto, using(std::proofs::Common::append_assoc))]
fn put_head(row: u64, answer: &Answer, out: &mut Out)
    requires { 156 ≤ out.old.spare }
    ensures bytes { out.new.bytes ≡ out.old.bytes ++ (decimal row ++ codes "," ++ word_of answer.now ++ codes "," ++ cause_text answer.now) }
    ensures spare { out.new.spare + length (decimal row ++ codes "," ++ word_of answer.now ++ codes "," ++ cause_text answer.now) ≡ out.old.spare }
    ensures short { length (decimal row ++ codes "," ++ word_of answer.now ++ codes "," ++ cause_text answer.now) ≤ 156 }
{
    put_number(row, out);
    out.put(b",");
    out.put(word_of(answer));
    out.put(b",");
    put_cause(answer, out);
}

/// How many numbers of a row are told with its answer.
fn echo_count(job: &Job) -> usize
    ensures count { result ≡ echo_count job.now }
    ensures few { result ≤ 320 }
{
    if job.echo {
        job.robot.nq() as usize + 3 * job.robot.nv() as usize
    } else {
        0
    }
}

/// How much room the line of a row takes at most.
pub fn line_room(job: &Job) -> usize
    ensures room { result ≡ line_room job.now }
    ensures few { result ≤ 200000 }
{
    81 * (echo_count(job) + value_count(job)) + 200
}

/// Puts the line of a row that has an answer, with its LF. It takes no memory.
#[tactic(auto, using(std::proofs::Common::append_assoc), unfolding(crate::specs::Line::line_of))]
pub fn put_line(job: &Job, slot: &Slot, out: &mut Out)
    requires slot { IsSlotOf job.now slot.now }
    requires answered { ¬ slot.now.answer ≡ Idle }
    requires room { line_room job.now ≤ out.old.spare }
    ensures exact { out.new.bytes ≡ out.old.bytes ++ line_of job.now.echo slot.now }
    ensures spare { out.new.spare + length (line_of job.now.echo slot.now) ≡ out.old.spare }
    ensures short { length (line_of job.now.echo slot.now) ≤ line_room job.now }
{
    put_head(slot.row, &slot.answer, out);
    put_echo(job, slot, out);
    put_numbers(is_done(&slot.answer), slot.values.as_slice(), out);
    out.put(b"\n");
}
