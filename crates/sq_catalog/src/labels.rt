//! The labels of an enumeration.

ghost use Rattle.std.specs.Prelude.{◌≡◌, ◌≤◌, ◌<◌, IfOk, IfSome, OnOk, OnErr, length};
ghost use Rattle.std.specs.List.{insert};
ghost use Rattle.std.specs.Option.{option_copied};
ghost use Rattle.sq_catalog.specs.Answers.{Answers, Gives};
ghost use Rattle.sq_catalog.specs.UserTypes.{place_of_label, is_among, repeated_label, distinct_labels, label_place, label_added, instead, label_renamed_at, label_renamed};
ghost use Rattle.sq_catalog.specs.Columns.{change_at};

use crate::{Beside, Cause, ChangeFault};
use sq_base::{List, Name};
use std::alloc::{AllocError, Global};
use std::mem;

// The place of a label.
fn place_of_label(labels: &[Name], label: &str) -> Option<usize>
    ensures place { result ≡ place_of_label labels.now label.now }
    ensures within { IfSome result (λ at. at < length labels.now) }
{
    labels.iter().position(|other| other.as_str() == label)
}

// Whether one of these labels is this one.
fn is_among(label: &Name, labels: &[Name]) -> bool
    ensures { result ≡ is_among label.now labels.now }
{
    labels.iter().any(|other| other.as_str() == label.as_str())
}

// The first label that stands again behind it.
fn repeated_label(labels: &[Name]) -> Option<&Name>
    ensures { option_copied result ≡ repeated_label labels.now }
{
    for at in 0..labels.len() {
        let label = &labels[at];
        let (_, later) = labels.split_at(at + 1);
        let again = is_among(label, later);
        if again {
            return Some(label);
        }
    }
    None
}

// Refuses equal labels.
pub(crate) fn check_labels(alloc: Global, labels: &[Name]) -> Result<(), ChangeFault>
    ensures { Gives (distinct_labels labels.now) result }
{
    match repeated_label(labels) {
        Some(label) => {
            let label = label.copy(alloc)?;
            Err(ChangeFault::Refused(Cause::Exists(label)))
        }
        None => Ok(()),
    }
}

// Where a new label comes.
fn label_place(labels: &[Name], beside: Beside) -> Result<usize, ChangeFault>
    ensures place { Gives (label_place labels.now beside) result }
    ensures within { IfOk result (λ at. at ≤ length labels.now) }
{
    match beside {
        Beside::Last => Ok(labels.len()),
        Beside::Before(other) => match place_of_label(labels, other.as_str()) {
            Some(at) => Ok(at),
            None => Err(ChangeFault::Refused(Cause::Missing(other))),
        },
        Beside::After(other) => match place_of_label(labels, other.as_str()) {
            Some(at) => Ok(at + 1),
            None => Err(ChangeFault::Refused(Cause::Missing(other))),
        },
    }
}

// Puts a label in at a place.
fn insert_label(
    alloc: Global,
    labels: &mut List<Name>,
    at: usize,
    label: Name,
) -> Result<(), AllocError>
    requires { at ≤ length labels.old }
    ensures ok { OnOk result (labels.new ≡ insert labels.old at label) }
    ensures err { OnErr result (labels.new ≡ labels.old) }
{
    let mut items = mem::replace(labels, List::new(alloc)).into_vec();
    let done = items.insert(at, label);
    *labels = List::from_vec(items);
    done?;
    Ok(())
}

// Adds a label, which must be new.
pub(crate) fn add_label(
    alloc: Global,
    labels: &mut List<Name>,
    label: Name,
    if_not_exists: bool,
    beside: Beside,
) -> Result<(), ChangeFault>
    ensures { Answers labels.old (label_added labels.old label if_not_exists beside) labels.new result }
{
    if place_of_label(labels.as_slice(), label.as_str()).is_some() {
        return if if_not_exists {
            Ok(())
        } else {
            Err(ChangeFault::Refused(Cause::Exists(label)))
        };
    }
    let at = label_place(labels.as_slice(), beside)?;
    insert_label(alloc, labels, at, label)?;
    Ok(())
}

// Puts another label in the place of one.
fn set_label(labels: &mut List<Name>, at: usize, to: Name)
    requires { at < length labels.old }
    ensures { labels.new ≡ change_at (instead to) labels.old at }
{
    labels.set(at, to);
}

// Gives the label at a place a text that no other has.
fn rename_label_at(labels: &mut List<Name>, at: usize, to: Name) -> Result<(), ChangeFault>
    requires { at < length labels.old }
    ensures { Answers labels.old (label_renamed_at labels.old at to) labels.new result }
{
    match place_of_label(labels.as_slice(), to.as_str()) {
        Some(_) => Err(ChangeFault::Refused(Cause::Exists(to))),
        None => {
            set_label(labels, at, to);
            Ok(())
        }
    }
}

// Gives a label a text that no other has.
pub(crate) fn rename_label(labels: &mut List<Name>, from: Name, to: Name) -> Result<(), ChangeFault>
    ensures { Answers labels.old (label_renamed labels.old from to) labels.new result }
{
    match place_of_label(labels.as_slice(), from.as_str()) {
        Some(at) => rename_label_at(labels, at, to),
        None => Err(ChangeFault::Refused(Cause::Missing(from))),
    }
}
