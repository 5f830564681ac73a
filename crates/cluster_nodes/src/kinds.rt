//! The kind of a message.
ghost use Rattle.std.specs.Prelude.{◌≡◌, option_and_then};
ghost use Rattle.cluster_nodes.specs.Nodes.{as_down, as_up, as_to_client, as_from_client};

use cluster_msgs::{Down, FromClient, Message, ToClient, Up};

/// The message of the scheduler to a worker, where it is one.
pub fn down_in(message: Option<Message>) -> Option<Down>
    ensures { result ≡ option_and_then as_down message }
{
    match message {
        Some(Message::Down(message)) => Some(message),
        _ => None,
    }
}

/// The message of a worker, where it is one.
pub fn up_in(message: Option<Message>) -> Option<Up>
    ensures { result ≡ option_and_then as_up message }
{
    match message {
        Some(Message::Up(message)) => Some(message),
        _ => None,
    }
}

/// The message of the scheduler to a client, where it is one.
pub fn to_client_in(message: Option<Message>) -> Option<ToClient>
    ensures { result ≡ option_and_then as_to_client message }
{
    match message {
        Some(Message::ToClient(message)) => Some(message),
        _ => None,
    }
}

/// The message of a client, where it is one.
pub fn from_client_in(message: Option<Message>) -> Option<FromClient>
    ensures { result ≡ option_and_then as_from_client message }
{
    match message {
        Some(Message::FromClient(message)) => Some(message),
        _ => None,
    }
}
