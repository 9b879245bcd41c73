//! Arrays that are computed once.
ghost use Rattle.std.specs.Prelude.{◌≡◌, ◌⊎◌, IfSome, Some, Ok};

use crate::asked::array;
use crate::told::{begin, push, push_values};
use scan_shared::{Law, Note, Shared, SharedArray, SharedPoll, SharedProbeState, SharedSlots};
use scan_values::{Array, NoMemory, Value};
use std::alloc::Global;
use std::marker::Brand;
use std::process::Abort;
use std::string::String;
use std::thread;
use std::thread::Threads;

/// What a call gives where there is memory.
type Given<'a> = Result<Result<&'a Array, &'a u8>, NoMemory>;

fn push_array(rt: &impl Abort, alloc: Global, array: &Array, text: &mut String) {
    begin(rt, text);
    push_values(rt, alloc, array.as_slice(), 9, text)
}

fn push_given(rt: &impl Abort, alloc: Global, given: Given<'_>, text: &mut String) {
    match given {
        Ok(Ok(array)) => push_array(rt, alloc, array, text),
        Ok(Err(fault)) => {
            let fault = *fault;
            let told = format!(in alloc; "; fault {fault}").expect(rt, "format");
            push(rt, text, told.as_str())
        }
        Err(_) => panic!(rt; "no memory"),
    }
}

fn push_poll(
    rt: &impl Abort,
    alloc: Global,
    poll: Result<SharedPoll<'_, u8>, NoMemory>,
    text: &mut String,
) {
    match poll {
        Ok(SharedPoll::Pending) => push(rt, text, "; pending"),
        Ok(SharedPoll::Done(given)) => push_given(rt, alloc, Ok(given), text),
        Err(_) => panic!(rt; "no memory"),
    }
}

#[test]
fn a_fault_stays_the_answer(rt: HostRuntime) {
    let alloc = rt.alloc();
    let later = array(&rt, alloc, "i32", "3,4");
    let shared: SharedArray<u8> = Shared::new(alloc, array(&rt, alloc, "i32", "1,2")).expect(
        &rt, "new",
    );
    let mut note = shared.note();
    let mut text = String::new(alloc);
    push_array(&rt, alloc, shared.source(), &mut text);
    push_array(&rt, alloc, shared.current_array_ref(&mut note), &mut text);
    let poll = shared.get_or_poll(&mut note, |_: &Array| None);
    push_poll(&rt, alloc, poll, &mut text);
    let first = shared.get_or_compute(&mut note, |_: &Array| Err(7));
    push_given(&rt, alloc, first, &mut text);
    let second = shared.get_or_compute(&mut note, move |_: &Array| Ok(later));
    push_given(&rt, alloc, second, &mut text);
    push_array(&rt, alloc, shared.current_array_ref(&mut note), &mut text);
    assert_eq!(rt; text.as_str(), "1,2; 1,2; pending; fault 7; fault 7; 1,2");
}

#[test]
fn the_first_array_stays_the_answer(rt: HostRuntime) {
    let alloc = rt.alloc();
    let made = array(&rt, alloc, "i32", "3,4");
    let shared: SharedArray<u8> = Shared::new(alloc, array(&rt, alloc, "i32", "1,2")).expect(
        &rt, "new",
    );
    let mut note = shared.note();
    let mut text = String::new(alloc);
    let first = shared.get_or_compute(&mut note, move |_: &Array| Ok(made));
    push_given(&rt, alloc, first, &mut text);
    let second = shared.get_or_compute(&mut note, |_: &Array| Err(7));
    push_given(&rt, alloc, second, &mut text);
    let poll = shared.get_or_poll(&mut note, |_: &Array| None);
    push_poll(&rt, alloc, poll, &mut text);
    push_array(&rt, alloc, shared.current_array_ref(&mut note), &mut text);
    assert_eq!(rt; text.as_str(), "3,4; 3,4; 3,4; 3,4");
}

/// A value by its number, 0 where there is none, and -1 where it is none.
fn number_of(value: Option<&Value>) -> i128 {
    match value {
        Some(Value::Int(number)) => *number,
        Some(_) => -1,
        None => 0,
    }
}

#[test]
fn a_probe_reads_the_computed_array(rt: HostRuntime) {
    let alloc = rt.alloc();
    let made = array(&rt, alloc, "i32", "3,4");
    let shared: SharedArray<u8> = Shared::new(alloc, array(&rt, alloc, "i32", "1,2")).expect(
        &rt, "new",
    );
    let mut note = shared.note();
    let mut state = SharedProbeState::default();
    let before = number_of(state.probe(&shared, &mut note, SharedSlots::SOURCE));
    let mut text = String::new(alloc);
    let poll = shared.get_or_poll(&mut note, move |_: &Array| Some(Ok(made)));
    push_poll(&rt, alloc, poll, &mut text);
    let second = number_of(state.probe(&shared, &mut note, 1));
    let third = number_of(state.probe(&shared, &mut note, 2));
    assert_eq!(rt; text.as_str(), "3,4");
    assert_eq!(rt; (before, second, third), (1, 4, 0));
}

// ---- threads
/// The array that a worker gets, which its note then knows. The law of the shared array holds of it.
fn get_with<'a, C: Law<u8>>(
    shared: &'a SharedArray<u8, C>,
    mut note: Note<u8, C>,
    mine: Array,
) -> (Option<&'a Array>, Note<u8, C>)
    requires note { note.cell ≡ shared.now.cell }
    requires lawful { C.holds (Ok mine) }
    ensures cell { result.1.cell ≡ note.cell }
    ensures known { IfSome result.0 (λ a. result.1.known ≡ Some (Ok a.now)) }
    ensures holds { IfSome result.0 (λ a. C.holds (Ok a.now)) }
{
    match shared.get_or_compute(&mut note, move |_: &Array| Ok(mine)) {
        Ok(Ok(array)) => (Some(array), note),
        _ => (None, note),
    }
}

/// Two workers compute an array each, and both get the same one. The law of the shared array holds of it.
fn race<'a, C: Law<u8> + Send + Sync, R: Threads + Sync>(
    rt: &R,
    shared: &'a SharedArray<u8, C>,
    one: Array,
    two: Array,
) -> Option<(&'a Array, &'a Array)>
    requires one { C.holds (Ok one) }
    requires two { C.holds (Ok two) }
    ensures same { IfSome result (λ r. r.0.now ≡ r.1.now) }
    ensures holds { IfSome result (λ r. C.holds (Ok r.0.now)) }
{
    let first_note = shared.note();
    let second_note = shared.note();
    let ((first, mut note), (second, other)) = thread::join(
        rt,
        move || -> (Option<&Array>, Note<u8, C>)
            requires note { first_note.cell ≡ shared.now.cell }
            requires lawful { C.holds (Ok one) }
            ensures cell { result.1.cell ≡ first_note.cell }
            ensures known { IfSome result.0 (λ a. result.1.known ≡ Some (Ok a.now)) }
            ensures holds { IfSome result.0 (λ a. C.holds (Ok a.now)) }
        { get_with(shared, first_note, one) },
        move || -> (Option<&Array>, Note<u8, C>)
            requires note { second_note.cell ≡ shared.now.cell }
            requires lawful { C.holds (Ok two) }
            ensures cell { result.1.cell ≡ second_note.cell }
            ensures known { IfSome result.0 (λ a. result.1.known ≡ Some (Ok a.now)) }
            ensures holds { IfSome result.0 (λ a. C.holds (Ok a.now)) }
        { get_with(shared, second_note, two) },
    );
    note.compare(other);
    let first = first?;
    let second = second?;
    Some((first, second))
}

/// What two workers compute from one source.
fn computed_by_two<C: Law<u8> + Send + Sync, R: Threads + Sync>(
    rt: &R,
    alloc: Global,
    source: Array,
    one: Array,
    two: Array,
) -> Option<Array>
    requires one { C.holds (Ok one) }
    requires two { C.holds (Ok two) }
    ensures { IfSome result (λ a. C.holds (Ok a)) }
{
    let shared: SharedArray<u8, C> = Shared::new(alloc, source).ok()?;
    let (first, _) = race(rt, &shared, one, two)?;
    first.try_clone(alloc).ok()
}

/// It is what the one or the other computed, and nothing else.
fn one_of_two<R: Threads + Sync>(
    rt: &R,
    alloc: Global,
    source: Array,
    one: Array,
    two: Array,
) -> Option<Array>
    ensures { IfSome result (λ a. (a ≡ one) ⊎ (a ≡ two)) }
{
    computed_by_two::<Brand, R>(rt, alloc, source, one, two)
}

#[test]
fn two_threads_get_one_array(rt: HostRuntime) {
    let alloc = rt.alloc();
    let shared: SharedArray<u8> = Shared::new(alloc, array(&rt, alloc, "i32", "1,2")).expect(
        &rt, "new",
    );
    let one = array(&rt, alloc, "i32", "3,4");
    let two = array(&rt, alloc, "i32", "5");
    let mut text = String::new(alloc);
    match race(&rt, &shared, one, two) {
        Some((first, second)) => {
            push_array(&rt, alloc, first, &mut text);
            push_array(&rt, alloc, second, &mut text);
        }
        None => push(&rt, &mut text, "none"),
    }
    assert!(rt;
        text.as_str() == "3,4; 3,4" || text.as_str() == "5; 5",
        "{text}"
    );
}

#[test]
fn an_answer_is_what_a_closure_gave(rt: HostRuntime) {
    let alloc = rt.alloc();
    let source = array(&rt, alloc, "i32", "1,2");
    let one = array(&rt, alloc, "i32", "3,4");
    let two = array(&rt, alloc, "i32", "5");
    let mut text = String::new(alloc);
    match one_of_two(&rt, alloc, source, one, two) {
        Some(array) => push_array(&rt, alloc, &array, &mut text),
        None => push(&rt, &mut text, "none"),
    }
    assert!(rt; text.as_str() == "3,4" || text.as_str() == "5", "{text}");
}
