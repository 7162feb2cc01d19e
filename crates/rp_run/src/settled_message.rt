//! Which message an event settles.

ghost use Rattle.std.specs.Prelude.{◌≡◌, ◌^◌, ◌<◌, ◌≤◌, All, IfSome};
ghost use Rattle.rp_run.specs.Output.{delivered_by, message_list, settled_by};

use rp_model::{Event, Step};

/// The message that an event settles, if it settles one.
#[inline(always)]
pub fn settled_by(event: &Event) -> Option<u64>
    requires { All (λ m. (1 ≤ m) × (m < 2 ^ 63)) (settled_by event.now) }
    ensures value { message_list result ≡ settled_by event.now }
    ensures in_range { IfSome result (λ m. (1 ≤ m) × (m < 2 ^ 63)) }
{
    match *event {
        Event::Node(step) | Event::Cut { step, .. } => delivered_by(step),
        Event::Submit { .. } | Event::Again { .. } | Event::Stop(_) | Event::Restart(_) => None,
    }
}

/// The message of a delivery, whole or cut.
#[inline(always)]
fn delivered_by(step: Step) -> Option<u64>
    requires { All (λ m. (1 ≤ m) × (m < 2 ^ 63)) (delivered_by step) }
    ensures value { message_list result ≡ delivered_by step }
    ensures in_range { IfSome result (λ m. (1 ≤ m) × (m < 2 ^ 63)) }
{
    match step {
        Step::Deliver(message) => Some(message),
        Step::Lead { .. }
        | Step::LeadRange { .. }
        | Step::Interrupt { .. }
        | Step::Tick { .. }
        | Step::Report { .. }
        | Step::Ask { .. } => None,
    }
}
