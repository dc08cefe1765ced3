//! A world that replays answers and records its calls.

ghost use Rattle.std.specs.Prelude.{◌≡◌, ◌≤◌, ◌++◌, ◌∷◌, [], Some, IfOk, IfErr, OnErr};
ghost use Rattle.std.specs.Prelude.{map, string_bytes, vec_len};
ghost use Rattle.std.specs.List.{before_first, position_or_len};
ghost use Rattle.rc_model.specs.Run.Calls.{event, fitting, is_halt, calls as calls_of};
ghost use Rattle.rc_model.specs.Run.Calls.{open_file, here, make_pipe, close, read, write, start, wait};
ghost use Rattle.rc_model.specs.Run.Calls.{list_names, probe, change_dir};
ghost use Rattle.rc_model.specs.declared.call.Fault.TheVariants.{NoMemory};
ghost use Rattle.rc_world.specs.Views.{launch_of, call_of, answer_of};
ghost use Rattle.rc_world.specs.Views.{file_answer, pair_answer, done_answer, bytes_answer};
ghost use Rattle.rc_world.specs.Views.{child_answer, ending_answer, names_answer, kind_answer};
ghost use Rattle.rc_world.specs.Tapes.{next_answer, tape_answers, tape_events, Plays};

use crate::{Answer, Call, ChildNo, Ending, Fault, Handle, Kind, Launch, Mode, Slot, World};
use rc_model::limits::LONGEST_READ;

/// A world that replays answers in order, one for each call, and then answers `Halt` to every further call. An answer
/// of the wrong kind, one of over 4096 bytes and `NoMemory` count as a refusal by `Other`.
pub struct Tape {
    answers: Vec<Answer>,
    calls: Vec<Call>,
}

impl Drop for Tape {
    fn drop(self) {
        let Tape {
            answers: _,
            calls: _,
        } = self;
    }
}

/// Counts the answers before the first halt.
fn before_halt(answers: &[Answer]) -> usize
    ensures { result ≡ position_or_len (λ answer. is_halt (answer_of answer)) answers.now }
{
    answers
        .iter()
        .take_while(|answer| !answer.is_halt())
        .count()
}

impl Tape {
    /// A tape of these answers, before its first call. The answers after a halt are never replayed.
    #[tactic(auto, using(crate::proofs::Tapes::cut_at_halt))]
    pub fn new(mut answers: Vec<Answer>) -> Tape
        ensures answers { tape_answers result ≡ before_first is_halt (map answer_of answers.items) }
        ensures events { tape_events result ≡ [] }
    {
        answers.truncate(before_halt(&answers));
        let alloc = *answers.allocator();
        Tape {
            answers,
            calls: Vec::new(alloc),
        }
    }

    /// All calls so far.
    #[tactic(auto, using(crate::proofs::Tapes::played_calls))]
    pub fn calls(&self) -> &[Call]
        ensures { map call_of result.now ≡ calls_of (tape_events self.now) }
    {
        self.calls.as_slice()
    }

    fn text(&self, text: &str) -> Result<String, Fault>
        ensures ok { IfOk result (λ copy. string_bytes copy ≡ text.now) }
        ensures err { IfErr result (λ fault. fault ≡ NoMemory) }
    {
        String::from_str(*self.answers.allocator(), text).map_err(|_| Fault::NoMemory)
    }

    /// The answer to the next call, as it was given.
    #[tactic(auto, using(crate::proofs::Tapes::next_at, crate::proofs::Tapes::next_past))]
    fn next_answer(&self) -> Result<Answer, Fault>
        ensures ok { let made = map call_of self.now.calls.items in
            IfOk result (λ answer. answer_of answer ≡ next_answer (tape_answers self.now) made) }
        ensures err { IfErr result (λ fault. fault ≡ NoMemory) }
    {
        match self.answers.get(self.calls.len()) {
            Some(answer) => answer.clone().map_err(|_| Fault::NoMemory),
            None => Ok(Answer::Refused(Fault::Halt)),
        }
    }

    /// Answers the next call; its event has the answer as the call takes it.
    #[tactic(auto, using(crate::proofs::Tapes::played_push))]
    fn play(&mut self, call: Call) -> Result<Answer, Fault>
        ensures ok { IfOk result (λ answer. let taken = fitting (call_of call) (answer_of answer) in
            tape_events self.new ≡ tape_events self.old ++ event (call_of call) taken ∷ []) }
        ensures err { IfErr result (λ fault. fault ≡ NoMemory) }
        ensures unmade { OnErr result (tape_events self.new ≡ tape_events self.old) }
        ensures kept { tape_answers self.new ≡ tape_answers self.old }
    {
        let answer = self.next_answer()?;
        match self.calls.push(call) {
            Ok(()) => Ok(answer),
            Err(_) => Err(Fault::NoMemory),
        }
    }
}

impl World for Tape {
    ghost events = { λ tape. Some (tape_events tape) };

    #[tactic(auto, using(crate::proofs::Tapes::refusal_made))]
    fn open(&mut self, path: &str, mode: Mode) -> Result<Handle, Fault>
        ensures { Plays self.old self.new (open_file path.now mode) (file_answer result) }
    {
        let path = self.text(path)?;
        match self.play(Call::Open(path, mode))? {
            Answer::File(handle) => Ok(handle),
            other => Err(other.fault()),
        }
    }

    #[tactic(auto, using(crate::proofs::Tapes::refusal_made))]
    fn here(&mut self, text: &str) -> Result<Handle, Fault>
        ensures { Plays self.old self.new (here text.now) (file_answer result) }
    {
        let text = self.text(text)?;
        match self.play(Call::Here(text))? {
            Answer::File(handle) => Ok(handle),
            other => Err(other.fault()),
        }
    }

    #[tactic(auto, using(crate::proofs::Tapes::refusal_made))]
    fn pipe(&mut self) -> Result<(Handle, Handle), Fault>
        ensures { Plays self.old self.new make_pipe (pair_answer result) }
    {
        match self.play(Call::Pipe)? {
            Answer::Pair(reader, writer) => Ok((reader, writer)),
            other => Err(other.fault()),
        }
    }

    #[tactic(auto, using(crate::proofs::Tapes::refusal_made))]
    fn close(&mut self, handle: Handle) -> Result<(), Fault>
        ensures { Plays self.old self.new (close handle.0) (done_answer result) }
    {
        match self.play(Call::Close(handle))? {
            Answer::Done => Ok(()),
            other => Err(other.fault()),
        }
    }

    #[tactic(auto, using(crate::proofs::Tapes::refusal_made))]
    fn read(&mut self, handle: Handle) -> Result<Vec<u8>, Fault>
        ensures played { Plays self.old self.new (read handle.0) (bytes_answer result) }
        ensures bound { IfOk result (λ bytes. vec_len bytes ≤ LONGEST_READ) }
    {
        match self.play(Call::Read(handle))? {
            Answer::Bytes(bytes) => {
                if bytes.len() <= LONGEST_READ {
                    Ok(bytes)
                } else {
                    Err(Fault::Other)
                }
            }
            other => Err(other.fault()),
        }
    }

    #[tactic(auto, using(crate::proofs::Tapes::refusal_made))]
    fn write(&mut self, slot: Slot, text: &[u8]) -> Result<(), Fault>
        ensures { Plays self.old self.new (write slot text.now) (done_answer result) }
    {
        let Ok(text) = Vec::from_slice(*self.answers.allocator(), text) else {
            return Err(Fault::NoMemory);
        };
        match self.play(Call::Write(slot, text))? {
            Answer::Done => Ok(()),
            other => Err(other.fault()),
        }
    }

    #[tactic(auto, using(crate::proofs::Tapes::refusal_made))]
    fn start(&mut self, launch: &Launch) -> Result<ChildNo, Fault>
        ensures { Plays self.old self.new (start (launch_of launch.now)) (child_answer result) }
    {
        let Ok(launch) = launch.clone() else {
            return Err(Fault::NoMemory);
        };
        match self.play(Call::Start(launch))? {
            Answer::Child(child) => Ok(child),
            other => Err(other.fault()),
        }
    }

    #[tactic(auto, using(crate::proofs::Tapes::refusal_made))]
    fn wait(&mut self, child: ChildNo) -> Result<Ending, Fault>
        ensures { Plays self.old self.new (wait child.0) (ending_answer result) }
    {
        match self.play(Call::Wait(child))? {
            Answer::Ended(ending) => Ok(ending),
            other => Err(other.fault()),
        }
    }

    #[tactic(auto, using(crate::proofs::Tapes::refusal_made))]
    fn list(&mut self, path: &str) -> Result<Vec<String>, Fault>
        ensures { Plays self.old self.new (list_names path.now) (names_answer result) }
    {
        let path = self.text(path)?;
        match self.play(Call::List(path))? {
            Answer::Names(names) => Ok(names),
            other => Err(other.fault()),
        }
    }

    #[tactic(auto, using(crate::proofs::Tapes::refusal_made))]
    fn probe(&mut self, path: &str) -> Result<Kind, Fault>
        ensures { Plays self.old self.new (probe path.now) (kind_answer result) }
    {
        let path = self.text(path)?;
        match self.play(Call::Probe(path))? {
            Answer::Found(kind) => Ok(kind),
            other => Err(other.fault()),
        }
    }

    #[tactic(auto, using(crate::proofs::Tapes::refusal_made))]
    fn chdir(&mut self, path: &str) -> Result<(), Fault>
        ensures { Plays self.old self.new (change_dir path.now) (done_answer result) }
    {
        let path = self.text(path)?;
        match self.play(Call::Chdir(path))? {
            Answer::Done => Ok(()),
            other => Err(other.fault()),
        }
    }
}
