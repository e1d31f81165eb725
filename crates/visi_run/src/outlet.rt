//! What tells the views of a run.

ghost use Rattle.std.specs.Prelude.{◌≡◌, [], ◌∷◌, false, OnOk};
ghost use Rattle.session.specs.Sessions.{new_session, state_of};
ghost use Rattle.visi_run.specs.Readings.{first_reading};
ghost use Rattle.visi_run.specs.Feed.{reading_of};
ghost use Rattle.visi_run.specs.Steps.{HasOneStep, HasPublished};

use crate::board::Board;
use crate::dial::{GaugeWriter, Reading};
use crate::publisher::Publisher;
use pn_types::NoMemory;
use session::Session;
use std::sync::Wait;

/// Tells the views of a run: its samples by the publisher, and how far it is by the gauge.
#[derive(Drop)]
pub struct Outlet {
    pub publisher: Publisher,
    pub writer: GaugeWriter,
    /// How many samples were published. The count stops at its greatest value.
    pub published: u64,
    /// How many times the session had taken samples when it was last told of.
    pub samples: u64,
}

impl Outlet {
    /// Makes the outlet of a session that just began.
    pub fn new(publisher: Publisher, writer: GaugeWriter, session: &Session) -> Outlet
        requires begun { session.now ≡ new_session session.now.inputs }
        requires none { publisher.items ≡ [] }
        requires first { writer.list ≡ first_reading ∷ [] }
        ensures told { HasPublished result (state_of session.now) false }
        ensures same { (result.publisher.lines ≡ publisher.lines) × (result.writer.cell ≡ writer.cell) }
    {
        Outlet {
            publisher,
            writer,
            published: 0,
            samples: session.samples(),
        }
    }

    // Publishes the session's latest samples, if any were taken in its last step.
    fn publish(&mut self, session: &Session) -> Result<(), NoMemory>
        requires { HasOneStep self.old (state_of session.now) }
        ensures feed { OnOk result (self.new.publisher.items ≡ (state_of session.now).feed) }
        ensures samples { OnOk result (self.new.samples ≡ (state_of session.now).kept.samples) }
        ensures published { OnOk result (self.new.published ≡ (reading_of (state_of session.now) false).published) }
        ensures same { (self.new.publisher.lines ≡ self.old.publisher.lines) × (self.new.writer ≡ self.old.writer) }
    {
        let samples = session.samples();
        if samples == self.samples {
            return Ok(());
        }
        let latest = session.latest();
        self.publisher.publish(latest)?;
        self.published = self.published.saturating_add(latest.len() as u64);
        self.samples = samples;
        Ok(())
    }

    /// Tells of the session's last step: publishes its samples, offers what waits, sets the gauge, and wakes the views.
    ///
    /// # Errors
    ///
    /// `NoMemory` where memory runs out.
    pub fn tell<R: Wait>(
        &mut self,
        rt: &R,
        board: &Board,
        session: &Session,
        ended: bool,
    ) -> Result<(), NoMemory>
        requires cell { self.old.writer.cell ≡ board.now.gauge.cell }
        requires behind { HasOneStep self.old (state_of session.now) }
        ensures told { OnOk result (HasPublished self.new (state_of session.now) ended) }
        ensures same { (self.new.publisher.lines ≡ self.old.publisher.lines) × (self.new.writer.cell ≡ self.old.writer.cell) }
    {
        self.publish(session)?;
        self.publisher.offer(rt);
        let reading = Reading {
            published: self.published,
            ticks: session.time(),
            ended,
        };
        board.gauge.set(rt, &mut self.writer, reading);
        board.wake();
        Ok(())
    }
}
