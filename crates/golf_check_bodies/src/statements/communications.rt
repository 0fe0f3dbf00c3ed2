//! The sends and receives among which a `select` chooses.
//!
//! A communication is judged on the line of `select`, and its names on the line of `case`.

ghost use Rattle.std.specs.Prelude.{◌≡◌};
ghost use Rattle.golf_check_types.specs.Statements.{communication as communication_of, received};
ghost use Rattle.golf_check_bodies.specs.CheckerClauses.{AddsFacts, Walks};

use crate::checker::Checker;
use golf_check_types::TypeFault;
use golf_syntax_trees::{Communication, Expr};

impl Checker {
    /// Walks over the communication of a case. Names left of `:=` are declared.
    #[tactic(auto, using(golf_check_types::proofs::WalkLaws::stays))]
    pub(crate) fn communication(
        &mut self,
        names_line: u32,
        communication: &Communication,
    ) -> Result<(), TypeFault>
        ensures { Walks result (communication_of self.old.line names_line communication.now self.old.scope) self.old self.new }
    {
        match communication {
            Communication::Send(channel, e) => self.send(channel.get(), e.get()),
            Communication::Receive(e) => self.receive_alone(e.get()),
            Communication::Define(name, e) => {
                self.declare_received_name(names_line, name.as_slice(), e.get())
            }
            Communication::Assign(name, e) => {
                self.assign_received_name(names_line, name.as_slice(), e.get())
            }
            Communication::DefineReceived(first, second, e) => {
                self.declare_received(names_line, first.as_slice(), second.as_slice(), e.get())
            }
        }
    }

    // `<-e`
    fn receive_alone(&mut self, e: &Expr) -> Result<(), TypeFault>
        ensures { AddsFacts result (received self.old.line e.now self.old.scope) self.old self.new }
    {
        self.receive(e)?;
        Ok(())
    }

    // `name := <-e`
    fn declare_received_name(
        &mut self,
        names_line: u32,
        name: &[u8],
        e: &Expr,
    ) -> Result<(), TypeFault>
        ensures { Walks result (communication_of self.old.line names_line (Communication.Define name.now e.now) self.old.scope) self.old self.new }
    {
        let t = self.receive(e)?;
        self.line = names_line;
        self.declare_name(name, t)
    }

    // `name = <-e`
    #[tactic(auto, using(golf_check_types::proofs::WalkLaws::stays))]
    fn assign_received_name(
        &mut self,
        names_line: u32,
        name: &[u8],
        e: &Expr,
    ) -> Result<(), TypeFault>
        ensures { Walks result (communication_of self.old.line names_line (Communication.Assign name.now e.now) self.old.scope) self.old self.new }
    {
        let t = self.receive(e)?;
        self.line = names_line;
        self.assign_name(name, &t)
    }
}
