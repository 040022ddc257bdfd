// The command that a line's words are.
ghost use Rattle.std.specs.Prelude.{◌≡◌, ◌+◌, ◌≤◌, [], length, drop, IfOk, slice_index_or};
ghost use Rattle.std.specs.Option.{ok_or};
ghost use Rattle.script.specs.declared.fault.Expected.TheVariants as expected;
ghost use Rattle.script.specs.Calls.{call_of, form_of, kind_of, meaning, sheet_call, weights_at};
ghost use Rattle.script.specs.Commands.{meant};
ghost use Rattle.script.specs.Cuts.{texts};
ghost use Rattle.script.specs.Faults.{Gives};
ghost use Rattle.script.specs.Forms.{lattice_count, sheet_count, count_of};
ghost use Rattle.script.specs.Numbers.{numbers_of};

use crate::command::{Command, SheetCall};
use crate::fault::{Expected, LineError};
use crate::forms::{Form, LatticeKind, SheetForm};
use crate::names::{CLASHES, FIRST, LATTICES, Opening, RIGHTS, lookup};
use crate::numbers::number;
use rates::kind::Kind;
use rates::weights::Triple;
use sheet::Edit;
use std::alloc::{AllocError, Global};

// The word at a place; the empty word, which is no name, past the end.
fn word_at<'a>(words: &[&'a [u8]], i: usize) -> &'a [u8]
    ensures { result.now ≡ slice_index_or (texts words.now) i [] }
{
    words.get(i).copied().unwrap_or(&[])
}

// The words from a place on; none past the end.
fn words_from<'a>(words: &'a [&'a [u8]], i: usize) -> &'a [&'a [u8]]
    ensures { texts result.now ≡ drop i (texts words.now) }
{
    words.get(i..).unwrap_or(&[])
}

// The form that the first words name.
fn form_of(words: &[&[u8]]) -> Result<Form, Expected>
    ensures { result ≡ form_of (texts words.now) }
{
    let second = word_at(words, 1);
    let opening = lookup(&FIRST, word_at(words, 0)).ok_or(Expected::Call)?;
    Ok(match opening {
        Opening::Whole(form) => form,
        Opening::Lattice => {
            Form::Lattice(lookup(&LATTICES, second).ok_or(Expected::LatticeKind)?)
        }
        Opening::Clash => Form::Clash(lookup(&CLASHES, second).ok_or(Expected::ClashRule)?),
        Opening::Cancel => {
            Form::Sheet(SheetForm::Cancel(lookup(&RIGHTS, second).ok_or(Expected::Right)?))
        }
    })
}

fn weights_at(numbers: &[u32], i: usize) -> Triple
    requires { i + 3 ≤ length numbers.now }
    ensures { result ≡ weights_at numbers.now i }
{
    Triple {
        low: numbers[i],
        level: numbers[i + 1],
        high: numbers[i + 2],
    }
}

// This and the two below ask for as many numbers as a form counts, each for a form of its own type: a struct of a
// form and its numbers would be three, each made and taken apart once.
fn kind_of(kind: LatticeKind, numbers: &[u32]) -> Kind<Triple>
    requires { lattice_count kind ≤ length numbers.now }
    ensures { result ≡ kind_of kind numbers.now }
{
    match kind {
        LatticeKind::Binomial => Kind::Binomial,
        LatticeKind::Trinomial => Kind::Trinomial(weights_at(numbers, 1)),
        LatticeKind::Worst => Kind::WorstCase(weights_at(numbers, 1), weights_at(numbers, 4)),
    }
}

fn sheet_call(form: SheetForm, numbers: &[u32]) -> SheetCall
    requires { sheet_count form ≤ length numbers.now }
    ensures { result ≡ sheet_call form numbers.now }
{
    match form {
        SheetForm::Coupon => SheetCall::Edit(Edit::Coupon(numbers[0] as usize, numbers[1])),
        SheetForm::Enter(right) => SheetCall::Edit(Edit::Enter(
            right,
            numbers[0] as usize,
            numbers[1],
            numbers[2] as usize,
        )),
        SheetForm::Cancel(right) => SheetCall::Edit(Edit::Cancel(right, numbers[0] as usize)),
        SheetForm::Redeem => SheetCall::Edit(Edit::Redeem(numbers[0])),
        SheetForm::Spread => SheetCall::Edit(Edit::Spread(numbers[0])),
        SheetForm::Back => SheetCall::Back {
            steps: numbers[0] as usize,
        },
        SheetForm::Read => SheetCall::Read {
            step: numbers[0] as usize,
            node: numbers[1] as usize,
        },
        SheetForm::Cost => SheetCall::Cost,
        SheetForm::Fit => SheetCall::Fit { price: numbers[0] },
        SheetForm::Strike => SheetCall::Strike,
        SheetForm::Table => SheetCall::Table,
    }
}

// The command of a form with its numbers.
fn command_of(heap: Global, form: Form, numbers: &[u32]) -> Result<Command, AllocError>
    requires { count_of form ≤ length numbers.now }
    ensures { IfOk result (λ c. meant c ≡ meaning form numbers.now) }
{
    match form {
        Form::Lattice(kind) => {
            let rates = Vec::from_slice(heap, &numbers[form.count()..])?;
            Ok(Command::Lattice {
                kind: kind_of(kind, numbers),
                steps: numbers[0] as usize,
                rates,
            })
        }
        Form::Clash(rule) => Ok(Command::Clash(rule)),
        Form::Open => Ok(Command::Open),
        Form::Sheet(form) => Ok(Command::Sheet(sheet_call(form, numbers))),
    }
}

// The numbers that the words are, for a call of the form.
fn numbers_of(heap: Global, form: Form, words: &[&[u8]]) -> Result<Vec<u32>, LineError>
    ensures { Gives (λ v. v.items) (ok_or (numbers_of (texts words.now)) (expected.Number form)) result }
{
    let mut found = Vec::new(heap);
    for word in words {
        found.push(number(word).ok_or(Expected::Number(form))?)?;
    }
    Ok(found)
}

// The command that the words are.
pub fn command_from(heap: Global, words: &[&[u8]]) -> Result<Command, LineError>
    ensures { Gives meant (call_of (texts words.now)) result }
{
    let form = form_of(words)?;
    let rest = words_from(words, form.name_length());
    if !form.takes(rest.len()) {
        return Err(Expected::Words(form).into());
    }
    let numbers = numbers_of(heap, form, rest)?;
    Ok(command_of(heap, form, &numbers)?)
}
