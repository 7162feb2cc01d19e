//! The text that shows the state of a program.

ghost use Rattle.std.specs.Prelude.{◌≡◌, ◌≤◌, ◌++◌, IfOk, length, string_bytes};
ghost use Rattle.rp_entry.specs.rp_body.specs.Store.{int_value, bool_value};
ghost use Rattle.rp_object.specs.Image.{ints_text, truth_text, bools_text, call_text, queue_text, entry_text, queues_text, object_line, object_lines, time_text, timer_line, timer_lines};
ghost use Rattle.std.specs.List.{All, AllZip};
ghost use Rattle.rp_object.specs.Program.{DeclarationFits};
ghost use Rattle.rp_object.specs.InMemory.{IsMade};

use crate::program::{ObjectDeclaration, Profile, TimingEvent};
use rp_body::Components;
use rp_entry::{Object, Queue, Waiting};
use std::alloc::AllocError;

/// ` NAME=VALUE` for each whole number.
fn write_ints(
    text: &mut String,
    names: &[String],
    components: &Components,
) -> Result<(), AllocError>
    requires { length names.now ≤ 8 }
    ensures { IfOk result (λ _. string_bytes text.new
        ≡ string_bytes text.old ++ ints_text components.now 0 names.now) }
{
    let mut place = 0;
    for name in names {
        write!(text, " {name}={}", int_value(components, place))?;
        place += 1;
    }
    Ok(())
}

/// The value of a whole number, 0 where there is none.
fn int_value(components: &Components, name: u8) -> i64
    ensures { result ≡ int_value components.now name }
{
    match components.int(name) {
        Some(component) => component.value,
        None => 0,
    }
}

/// ` NAME=true` or ` NAME=false` for each Boolean.
fn write_bools(
    text: &mut String,
    names: &[String],
    components: &Components,
) -> Result<(), AllocError>
    requires { length names.now ≤ 8 }
    ensures { IfOk result (λ _. string_bytes text.new
        ≡ string_bytes text.old ++ bools_text components.now 0 names.now) }
{
    let mut place = 0;
    for name in names {
        write!(text, " {name}=")?;
        write_truth(text, bool_value(components, place))?;
        place += 1;
    }
    Ok(())
}

/// The value of a Boolean, `false` where there is none.
fn bool_value(components: &Components, name: u8) -> bool
    ensures { result ≡ bool_value components.now name }
{
    components.bool(name).unwrap_or(false)
}

/// `true` or `false`.
fn write_truth(text: &mut String, truth: bool) -> Result<(), AllocError>
    ensures { IfOk result (λ _. string_bytes text.new
        ≡ string_bytes text.old ++ truth_text truth) }
{
    text.push_str(if truth { "true" } else { "false" })
}

/// A call that waits.
fn write_call(text: &mut String, call: Waiting) -> Result<(), AllocError>
    ensures { IfOk result (λ _. string_bytes text.new
        ≡ string_bytes text.old ++ call_text call) }
{
    let task = call.task.get();
    write!(text, " task {task} call {} arg {}", call.number, call.arg)
}

/// The calls that wait at an entry, in order of arrival, or ` none`.
fn write_queue(text: &mut String, queue: &Queue) -> Result<(), AllocError>
    ensures { IfOk result (λ _. string_bytes text.new
        ≡ string_bytes text.old ++ queue_text queue.now) }
{
    if queue.is_empty() {
        return text.push_str(" none");
    }
    for place in 0..queue.len() {
        if let Some(call) = queue.get(place) {
            write_call(text, call)?;
        }
    }
    Ok(())
}

/// The name of an entry, where there may be several.
fn write_entry(text: &mut String, profile: Profile, name: &str) -> Result<(), AllocError>
    ensures { IfOk result (λ _. string_bytes text.new
        ≡ string_bytes text.old ++ entry_text profile name.now) }
{
    match profile {
        Profile::Ravenscar => Ok(()),
        Profile::Jorvik => write!(text, " {name}"),
    }
}

/// The queue of each entry, in order.
fn write_queues(
    text: &mut String,
    profile: Profile,
    names: &[String],
    queues: &[Queue],
) -> Result<(), AllocError>
    requires each { length queues.now ≡ length names.now }
    ensures { IfOk result (λ _. string_bytes text.new
        ≡ string_bytes text.old ++ queues_text profile names.now queues.now) }
{
    for (place, name) in names.iter().enumerate() {
        text.push_str(" queue")?;
        write_entry(text, profile, name)?;
        write_queue(text, &queues[place])?;
    }
    Ok(())
}

/// The line of an object.
fn write_object(
    text: &mut String,
    profile: Profile,
    declared: &ObjectDeclaration,
    object: &Object,
) -> Result<(), AllocError>
    requires ints { length declared.now.ints.items ≤ 8 }
    requires bools { length declared.now.bools.items ≤ 8 }
    requires each { length object.now.state.queues ≡ length declared.now.entries.items }
    ensures { IfOk result (λ _. string_bytes text.new
        ≡ string_bytes text.old ++ object_line profile declared.now object.now) }
{
    write!(text, "object {}", declared.name)?;
    write_ints(text, &declared.ints, object.components())?;
    write_bools(text, &declared.bools, object.components())?;
    write_queues(text, profile, &declared.entries, object.queues())?;
    text.push_str("\n")
}

/// The line of a timing event.
fn write_timer(text: &mut String, timer: &TimingEvent, time: Option<i64>) -> Result<(), AllocError>
    ensures { IfOk result (λ _. string_bytes text.new
        ≡ string_bytes text.old ++ timer_line timer.now time) }
{
    write!(text, "timer {}", timer.name)?;
    match time {
        Some(time) => write!(text, " at {time}")?,
        None => text.push_str(" off")?,
    }
    text.push_str("\n")
}

/// The lines of the objects.
pub(crate) fn write_objects(
    text: &mut String,
    profile: Profile,
    declared: &[ObjectDeclaration],
    objects: &[Object],
) -> Result<(), AllocError>
    requires right { All DeclarationFits declared.now }
    requires made { AllZip IsMade declared.now objects.now }
    ensures { IfOk result (λ _. string_bytes text.new
        ≡ string_bytes text.old ++ object_lines profile declared.now objects.now) }
{
    for (place, declaration) in declared.iter().enumerate() {
        write_object(text, profile, declaration, &objects[place])?;
    }
    Ok(())
}

/// The lines of the timing events.
pub(crate) fn write_timers(
    text: &mut String,
    declared: &[TimingEvent],
    times: &[Option<i64>],
) -> Result<(), AllocError>
    requires each { length times.now ≡ length declared.now }
    ensures { IfOk result (λ _. string_bytes text.new
        ≡ string_bytes text.old ++ timer_lines declared.now times.now) }
{
    for (place, timer) in declared.iter().enumerate() {
        write_timer(text, timer, times[place])?;
    }
    Ok(())
}
