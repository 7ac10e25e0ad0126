ghost use Rattle.std.specs.Prelude.{◌≡◌, ◌≢◌, None, true};
ghost use Rattle.rs_value.specs.Outside.{Counts};
ghost use Rattle.rs_outside.specs.OutSink.{WritesWhole, faults_after_put};
ghost use Rattle.rs_outside.specs.Sink.{Puts};
ghost use Rattle.rs_prepare.specs.Questions.{held_after, new_questions, questions_state};

use rs_outside::{OutSink, Sink, SinkFault};
use std::io::Write;
use std::marker::Model;

/// Where questions go. A FIFO of the file system is held open for reading besides, up to the second question: so it can be opened
/// before who answers has opened it, and a first question isn't lost. The answer to the first question says that somebody reads;
/// from then on a question that nobody can read fails.
#[derive(Drop)]
pub struct Questions<W> {
    to: OutSink<W>,
    held: Option<W>,
    asked: bool,
}

impl<W> Model for Questions<W> {
    ghost use Rattle.rs_prepare.specs.Questions.{QuestionsState};

    ghost Value = { QuestionsState W };

    ghost view = { λ q. record { to = q.to; held = q.held; asked = q.asked } };
}

impl<W: Drop> Questions<W> {
    /// Questions to this writer, beside which this one is held.
    pub fn new(to: W, held: Option<W>) -> Questions<W>
        ensures { result ≡ new_questions to held }
    {
        Questions {
            to: OutSink::new(to),
            held,
            asked: false,
        }
    }
}

impl<W: Write + Drop> Sink for Questions<W> {
    ghost state = { questions_state };

    fn put(&mut self, bytes: &[u8]) -> Result<(), SinkFault>
        ensures puts { Puts bytes.now result None None }
        ensures counts { Counts (result ≡ Err SinkFault.Failed) (questions_state self.old) (questions_state self.new) }

        // What is put goes to the writer.
        ensures written { WritesWhole (W.contents self.old.to.writer) (W.contents self.new.to.writer) result bytes.now }
        ensures counted { self.new.to.faults ≡ faults_after_put result self.old.to.faults }
        ensures no_memory { result ≢ Err SinkFault.Memory }

        // From the second question on nothing is held.
        ensures held { self.new.held ≡ held_after self.old.asked self.old.held }
        ensures asked { self.new.asked ≡ true }
    {
        if self.asked {
            self.held = None;
        }
        self.asked = true;
        self.to.put(bytes)
    }
}
