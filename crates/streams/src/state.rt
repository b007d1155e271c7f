// How a stream stands, and what one that is over answers.
ghost use Rattle.std.specs.Prelude.{◌≡◌, IfOk, IfErr};
ghost use Rattle.frame.specs.Framing.{header_width, body_limit};
ghost use Rattle.streams.specs.Stream.{over, state, stay, answer_again};
ghost use Rattle.streams.specs.Steps.{Going, Standing};
ghost use Rattle.streams.specs.Paper.{means_says, means_pushed};

use crate::{Pushed, Says, Stream};
use frame::{Frame, Refusal};
use wire::answers;

impl Stream {
    // What the held bytes of a stream that goes on lack; of one that doesn't, and of a state that no calls lead to, what it answers.
    pub(crate) fn lacks(self, buffer: &[u8]) -> Result<usize, Says>
        ensures ok { IfOk result (λ missing. Going header_width body_limit self buffer.now missing) }
        ensures err { IfErr result (λ says. Standing header_width body_limit self buffer.now (means_says says)) }
    {
        if buffer.len() < Frame::LIMIT || buffer.len() < self.held {
            return Err(Says::Malformed);
        }
        let missing = frame::wanting(&buffer[..self.held]);
        match self.mark {
            Stream::GOING if 0 < missing => Ok(missing),
            Stream::ENDED if 0 < missing => Err(self.at_end(missing)),
            answers::TOO_LONG if self.held == 0 => Err(Says::Refused(Refusal::TooLong)),
            answers::WRONG_SUM if self.held == 0 => Err(Says::Refused(Refusal::WrongSum)),
            _ => Err(Says::Malformed),
        }
    }

    // What a stream that was told to have ended answers, at every call, where its held bytes lack so many.
    pub(crate) fn at_end(self, missing: usize) -> Says
        ensures { means_says result ≡ answer_again missing (state over self.held) }
    {
        match self.held {
            0 => Says::End,
            _ => Says::Refused(Refusal::TooShort { missing }),
        }
    }

    // Nothing is taken, and the state stays.
    pub(crate) fn stay(self, says: Says) -> Pushed
        ensures { means_pushed result ≡ stay (means_says says) self }
    {
        Pushed {
            says,
            took: 0,
            next: self,
        }
    }
}
