// What a line prints of a call's answer: a word, or "written" or "refused" and a number. Of three calls' answers, and no one's own.
use std::fmt;
use std::fmt::{Display, Formatter, Write};
use tracker::{News, RequestRefusal};

#[derive(Clone, Copy)]
pub enum Said {
    Word(&'static str),
    Written(usize),
    Refused(u32),
}

impl Display for Said {
    fn fmt<W: Write>(&self, f: &mut Formatter<W>) -> fmt::Result {
        match self {
            Said::Word(word) => write!(f, "{word}"),
            Said::Written(n) => write!(f, "written {n}"),
            Said::Refused(number) => write!(f, "refused {number}"),
        }
    }
}

impl From<Result<usize, writer::Refusal>> for Said {
    fn from(answer: Result<usize, writer::Refusal>) -> Said {
        match answer {
            Ok(n) => Said::Written(n),
            Err(why) => Said::Refused(u32::from(why)),
        }
    }
}

impl From<Result<News, tracker::Refusal>> for Said {
    fn from(answer: Result<News, tracker::Refusal>) -> Said {
        match answer {
            Ok(News::New) => Said::Word("new"),
            Ok(News::Late) => Said::Word("late"),
            Ok(News::Duplicate) => Said::Word("duplicate"),
            Ok(News::Heard) => Said::Word("heard"),
            Ok(News::BeforeStart) => Said::Word("before start"),
            Err(why) => Said::Refused(u32::from(why)),
        }
    }
}

impl From<Result<Option<usize>, RequestRefusal>> for Said {
    fn from(answer: Result<Option<usize>, RequestRefusal>) -> Said {
        match answer {
            Ok(Some(n)) => Said::Written(n),
            Ok(None) => Said::Word("nothing missing"),
            Err(why) => Said::Refused(u32::from(why)),
        }
    }
}
