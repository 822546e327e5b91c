//! What a command that was carried out prints.
ghost use Rattle.std.specs.Prelude.{◌≡◌};
ghost use Rattle.script_session.specs.Done.{refused_by};

use crate::reply::CommandReply;
use script_board::Fault;

/// What a command that was carried out prints.
#[derive(Drop)]
pub enum Done {
    /// A line for each refusal that requests and deposits met.
    Served(Vec<Fault>),
    /// The plan that was adopted. Its parts are made when it is printed.
    Planned,
    /// These lines.
    Lines(CommandReply),
    /// These lines, and then a line for each refusal that requests and deposits met.
    Carried(Vec<Fault>, CommandReply),
}

impl Done {
    /// The refusals that requests and deposits met.
    pub fn refused(&self) -> &[Fault]
        ensures { result.now ≡ refused_by self.now }
    {
        match self {
            Done::Served(refused) | Done::Carried(refused, _) => refused.as_slice(),
            _ => &[],
        }
    }
}
