//! What an event with its message counts as.
ghost use Rattle.std.specs.Prelude.{◌≡◌, ℕ, Bool, true, false, Option};
ghost use Rattle.std.specs.Option.{option_copied};
ghost use Rattle.cluster_msgs.specs.declared.messages.Message.{Message as AnyMessage};
ghost use Rattle.cluster_msgs.specs.declared.events.Event.TheVariants.{DeliverUp};
ghost use Rattle.cluster_rules.specs.Report.{is_join, is_start, is_gather, is_loss, is_answer, says};
ghost use Rattle.run_report.specs.Counts.{starter, agrees_by};

use cluster_msgs::{Asker, Event, Message, Up};

pub fn is_join(event: &Event) -> bool
    ensures { (m : Option AnyMessage) → result ≡ is_join (event.now, m) }
{
    matches!(event, Event::Join { .. })
}

pub fn is_gather(event: &Event) -> bool
    ensures { (m : Option AnyMessage) → result ≡ is_gather (event.now, m) }
{
    match event {
        Event::SendGather { asker, .. } => matches!(asker, Asker::Worker(_)),
        _ => false,
    }
}

pub fn is_loss(event: &Event) -> bool
    ensures { (m : Option AnyMessage) → result ≡ is_loss (event.now, m) }
{
    matches!(event, Event::SeeLoss { .. } | Event::Suspect { .. })
}

pub fn is_start(event: &Event) -> bool
    ensures { (m : Option AnyMessage) → result ≡ is_start (event.now, m) }
{
    matches!(event, Event::Start { .. })
}

/// The worker that starts a key.
pub fn starter(event: &Event) -> Option<u32>
    ensures { result ≡ starter event.now }
{
    match event {
        Event::Start { worker } => Some(*worker),
        _ => None,
    }
}

/// Whether a delivered answer to a steal says yes, whether or not it counts.
pub fn is_confirmed(event: &Event, message: Option<&Message>) -> bool
    ensures { result ≡ is_answer true (event.now, option_copied message.entry) }
{
    match steal_answer(event, message) {
        Some(yes) => yes,
        None => false,
    }
}

/// Whether it says no.
pub fn is_refused(event: &Event, message: Option<&Message>) -> bool
    ensures { result ≡ is_answer false (event.now, option_copied message.entry) }
{
    match steal_answer(event, message) {
        Some(yes) => !yes,
        None => false,
    }
}

/// What a delivered answer to a steal says.
fn steal_answer(event: &Event, message: Option<&Message>) -> Option<bool>
    ensures { (agreed : Bool) → is_answer agreed (event.now, option_copied message.entry) ≡ agrees_by agreed result }
{
    match event {
        Event::DeliverUp { .. } => message_answer(message),
        _ => None,
    }
}

fn message_answer(message: Option<&Message>) -> Option<bool>
    ensures { (i : ℕ) (agreed : Bool) → is_answer agreed (DeliverUp i, option_copied message.entry) ≡ agrees_by agreed result }
{
    match message {
        Some(message) => told_answer(message),
        None => None,
    }
}

fn told_answer(message: &Message) -> Option<bool>
    ensures { (i : ℕ) (agreed : Bool) → is_answer agreed (DeliverUp i, Some message.now) ≡ agrees_by agreed result }
{
    match message {
        Message::Up(up) => answer_of(up),
        _ => None,
    }
}

fn answer_of(up: &Up) -> Option<bool>
    ensures { (agreed : Bool) → says agreed up.now ≡ agrees_by agreed result }
{
    match up {
        Up::StealResponse { yes, .. } => Some(*yes),
        _ => None,
    }
}
