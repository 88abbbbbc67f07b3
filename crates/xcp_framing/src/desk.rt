//! A station that executes each request on its slave and stores the exchange.
ghost use Rattle.std.specs.Prelude.{◌≡◌, [], ◌∷◌, ◌++◌, IfOk, OnErr, IfErr, length};
ghost use Rattle.xcp_slave.specs.Run.{Run};
ghost use Rattle.xcp_slave.specs.Step.{Answers};
ghost use Rattle.xcp_slave.specs.AnswerInBytes.{answer_in};
ghost use Rattle.xcp_slave.specs.AskedRequest.{IsShort, request_asked};
ghost use Rattle.xcp_slave.specs.SlaveValue.{layout_of, opening};

use crate::{Station, StationError};
use std::alloc::Global;
use std::marker::Model;
use xcp_packet::Packet;
use xcp_slave::{Answer, Asked, Request, Slave, Told};
use xcp_trace::Trace;

/// A slave with all the exchanges that it has had. They are a run of the slave, from the opening
/// of its layout to the slave as it is now.
#[derive(Drop)]
pub struct Desk {
    slave: Slave,
    trace: Trace,
}

impl Model for Desk {
    ghost use Rattle.xcp_framing.specs.Desk.{DeskValue};
    ghost use Rattle.xcp_slave.specs.Run.{Run};
    ghost use Rattle.xcp_slave.specs.SlaveValue.{layout_of, opening};

    ghost Value = { DeskValue };

    ghost view = { λ d. record { slave = d.slave; exchanges = d.trace.exchanges } };

    ghost invariant = { λ d. Run (opening (layout_of d.slave)) d.trace.exchanges d.slave };
}

impl Desk {
    /// A desk over a slave that has had no request yet. It takes no memory yet.
    pub fn new(alloc: Global, slave: Slave) -> Desk
        requires { slave ≡ opening (layout_of slave) }
        ensures { result ≡ record { slave = slave; exchanges = [] } }
    {
        Desk {
            slave,
            trace: Trace::new(alloc),
        }
    }

    /// MAX_CTO: the greatest length of a command or of a packet that answers one, in bytes.
    pub fn max_cto(&self) -> u8
        ensures { result ≡ (layout_of self.now.slave).max_cto }
    {
        self.slave.max_cto()
    }

    /// The exchanges so far, in order: how many, each by its index, or all of them one by one.
    pub fn trace(&self) -> &Trace
        ensures { result.now.exchanges ≡ self.now.exchanges }
    {
        &self.trace
    }

    /// Does nothing: its contract says that the exchanges are a run, which each desk keeps.
    pub fn known(&self)
        ensures { Run (opening (layout_of self.now.slave)) self.now.exchanges self.now.slave }
    {
        let _ = &self.slave;
    }
}

impl Station for Desk {
    ghost use Rattle.std.proofs.Common.{refl, ◌∙◌};
    ghost use Rattle.xcp_framing.specs.declared.station.StationError.TheVariants as refusals;

    ghost exchanges = { λ d. d.exchanges };

    ghost same = { λ old new. layout_of new.slave ≡ layout_of old.slave };

    ghost same_refl = { λ d. refl };

    ghost same_trans = { λ x y z p q. q ∙ p };

    ghost refuses = { λ d request e. e ≡ refusals.Memory };

    /// Answers a request whose bytes are lent. The one refusal is `Memory`, which comes before anything is
    /// executed.
    fn submit_into(&mut self, asked: Asked<'_>, packet: &mut Packet) -> Result<Told, StationError>
        requires { IsShort asked }
        ensures answers { IfOk result (λ told.
            Answers self.old.slave (request_asked asked.entry) (answer_in told packet.new) self.new.slave) }
        ensures ok { IfOk result (λ told. self.new.exchanges ≡ self.old.exchanges
            ++ record { request = request_asked asked.entry; answer = answer_in told packet.new } ∷ []) }
        ensures err { OnErr result (self.new ≡ self.old) }
        ensures memory { IfErr result (λ e. e ≡ StationError.Memory) }
        ensures layout { layout_of self.new.slave ≡ layout_of self.old.slave }
    {
        if self.trace.reserve().is_err() {
            return Err(StationError::Memory);
        }
        let told = self.slave.answer(asked, packet);
        self.trace.push(asked, &told, packet);
        Ok(told)
    }

    /// How many packets wait in the slave's outbox.
    fn pending(&mut self) -> u16
        ensures count { result ≡ length self.old.slave.outbox }
        ensures kept { self.new ≡ self.old }
    {
        self.slave.pending()
    }

    /// Answers a request. The one refusal is `Memory`, which comes before anything is executed.
    fn submit(&mut self, request: Request) -> Result<Answer, StationError>
        ensures answers { IfOk result (λ answer.
            Answers self.old.slave request answer self.new.slave) }
        ensures ok { IfOk result (λ answer. self.new.exchanges
            ≡ self.old.exchanges ++ record { request = request; answer = answer } ∷ []) }
        ensures err { OnErr result (self.new ≡ self.old) }
        ensures memory { IfErr result (λ e. e ≡ StationError.Memory) }
        ensures layout { layout_of self.new.slave ≡ layout_of self.old.slave }
    {
        let mut packet = Packet::new();
        let told = self.submit_into(request.lent(), &mut packet)?;
        Ok(told.with(packet))
    }
}
