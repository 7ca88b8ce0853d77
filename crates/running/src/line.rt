// The only file that names the library's calls and answers: what a run asks of them, in the run's own terms.
use foldheron::{Refused, Unanswered, number_of};

// A block, and the state that it came to.
#[derive(Drop)]
pub struct Run<'a> {
    block: &'a [u8],
    state: [u8; 26],
}

impl<'a> Run<'a> {
    // Begins from the fresh state of the block, which tests the block too.
    pub fn begin(block: &'a [u8]) -> Result<Self, Refused> {
        let mut state = [0u8; 26];
        foldheron::fresh(block, &mut state)?;
        Ok(Run { block, state })
    }

    // Runs the instant `number` and gives the numbers of its line: its own, refusal or 0, code, present outputs, active pauses (of a 13, undecided
    // outputs), rounds. All of a refusal that are not named are 0. On a refusal the library leaves the state as it was, so that the
    // next instant goes on from there.
    pub fn react(&mut self, number: u64, inputs: u64) -> [u64; 6] {
        match foldheron::instant(self.block, &mut self.state, inputs) {
            Ok(r) => [
                number,
                0,
                r.code.0.into(),
                r.present,
                r.active.into(),
                r.rounds.into(),
            ],
            Err(Unanswered::NotConstructive(d)) => [
                number,
                13,
                0,
                d.present,
                d.undecided.into(),
                d.rounds.into(),
            ],
            Err(Unanswered::Clash(..)) => [number, 10, 0, 0, 0, 0],
            Err(Unanswered::Refused(r)) => [number, number_of(r.why).into(), 0, 0, 0, 0],
        }
    }
}
