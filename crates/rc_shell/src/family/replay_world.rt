//! A world that replays the answers of a process.

ghost use Rattle.std.specs.Prelude.{◌≡◌, [], map};
ghost use Rattle.std.specs.List.{before_first};
ghost use Rattle.rc_model.specs.Run.Calls.{is_halt, calls as calls_of};
ghost use Rattle.rc_shell.specs.Replays.{record_of, replay_answers, replay_events};
ghost use Rattle.rc_world.specs.Views.{answer_of, call_of};

use rc_world::{
    Answer, Call, ChildNo, Ending, Fault, Handle, Kind, Launch, Mode, Slot, Tape, World,
};

/// A tape of answers. Its record begins with these answers: so it is known of a run over any world that this one
/// replayed the answers that it was made with.
pub(crate) struct Replay {
    tape: Tape,
}

impl Drop for Replay {
    fn drop(self) {
        let Replay { tape: _ } = self;
    }
}

impl Replay {
    /// A world of these answers, before its first call. The answers after a halt are never replayed.
    pub(crate) fn new(answers: Vec<Answer>) -> Replay
        ensures answers { replay_answers result ≡ before_first is_halt (map answer_of answers.items) }
        ensures events { replay_events result ≡ [] }
    {
        Replay {
            tape: Tape::new(answers),
        }
    }

    /// All calls so far.
    pub(crate) fn calls(&self) -> &[Call]
        ensures { map call_of result.now ≡ calls_of (replay_events self.now) }
    {
        self.tape.calls()
    }
}

#[tactic(auto, using(crate::proofs::Replays::recorded_on))]
impl World for Replay {
    ghost events = { record_of };

    fn open(&mut self, path: &str, mode: Mode) -> Result<Handle, Fault> {
        self.tape.open(path, mode)
    }

    fn here(&mut self, text: &str) -> Result<Handle, Fault> {
        self.tape.here(text)
    }

    fn pipe(&mut self) -> Result<(Handle, Handle), Fault> {
        self.tape.pipe()
    }

    fn close(&mut self, handle: Handle) -> Result<(), Fault> {
        self.tape.close(handle)
    }

    fn read(&mut self, handle: Handle) -> Result<Vec<u8>, Fault> {
        self.tape.read(handle)
    }

    fn write(&mut self, slot: Slot, text: &[u8]) -> Result<(), Fault> {
        self.tape.write(slot, text)
    }

    fn start(&mut self, launch: &Launch) -> Result<ChildNo, Fault> {
        self.tape.start(launch)
    }

    fn wait(&mut self, child: ChildNo) -> Result<Ending, Fault> {
        self.tape.wait(child)
    }

    fn list(&mut self, path: &str) -> Result<Vec<String>, Fault> {
        self.tape.list(path)
    }

    fn probe(&mut self, path: &str) -> Result<Kind, Fault> {
        self.tape.probe(path)
    }

    fn chdir(&mut self, path: &str) -> Result<(), Fault> {
        self.tape.chdir(path)
    }
}
