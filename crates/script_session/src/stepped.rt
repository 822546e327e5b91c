//! The steps of exports and requests, and the line on each.
ghost use Rattle.std.specs.Prelude.{◌≡◌, OnOk, string_bytes, true};
ghost use Rattle.mds_board.specs.Steps.{is_inner};
ghost use Rattle.script_session.specs.Steps.{event_of, step_line};

use export_protocol::{Event, Reply};
use mds_types::Dir;
use script_commands::NumberedStep;
use std::alloc::AllocError;

/// The event that a step with a number is.
pub(crate) fn event_of(step: NumberedStep) -> Event
    ensures event { result ≡ event_of step }
    ensures inner { is_inner result ≡ true }
{
    match step {
        NumberedStep::Deliver(message) => Event::Deliver(message),
        NumberedStep::Froze(export) => Event::Froze(export),
        NumberedStep::Notify(export) => Event::Notify(export),
        NumberedStep::Abort(export) => Event::Abort(export),
        NumberedStep::Ask(export) => Event::Ask(export),
        NumberedStep::End(ticket) => Event::End(ticket),
    }
}

/// Makes the line on a step in a text, in place of what it held.
pub(crate) fn step_line(reply: Reply, line: &mut String) -> Result<(), AllocError>
    ensures { OnOk result (string_bytes line.new ≡ step_line reply) }
{
    line.clear();
    match reply {
        Reply::Dir(dir) => dir_line(dir, line),
        Reply::Ticket(ticket) => write!(line, "ticket {ticket}\n"),
        Reply::Export(export, message) => started_line(export, message, line),
        Reply::Sent(message) => write!(line, "sent {message}\n"),
        Reply::Changed => line.push_str("changed\n"),
        Reply::Ignored => line.push_str("ignored\n"),
    }
}

fn dir_line(dir: Dir, line: &mut String) -> Result<(), AllocError>
    ensures { OnOk result (string_bytes line.new ≡ step_line (Reply.Dir dir)) }
{
    let number = dir.number();
    line.clear();
    write!(line, "dir {number}\n")
}

fn started_line(export: u32, message: u32, line: &mut String) -> Result<(), AllocError>
    ensures { OnOk result (string_bytes line.new ≡ step_line (Reply.Export export message)) }
{
    line.clear();
    write!(line, "export {export} message {message}\n")
}
