// 390094, resend; its texts are news id and reject text.
ghost use Rattle.std.specs.Prelude.{refl};
ghost use Rattle.layout.specs.declared.resend.TheConstants as constants;
ghost use Rattle.bodies.specs.Body.{text_size};

use crate::Body;
use crate::groups::none;
use layout::{Refusal, natural_in_range, resend, resend_type_in_range, status_in_range, width};
use record::Resend;
use wire::{Number, unsigned};

impl Body for Resend {
    ghost TEXTS_SIZE = { constants.TEXTS_SIZE };

    const TEXTS_SIZE: usize = resend::TEXTS_SIZE;

    fn numbers_in_range(self) -> bool {
        resend_type_in_range(self.resend_type)
            & (natural_in_range(unsigned(self.first_number))
                & (natural_in_range(unsigned(self.last_number)) & status_in_range(self.status)))
    }

    fn judge_groups(self, groups: &[u8]) -> Result<(), Refusal> {
        none(groups)
    }

    fn store(self, texts: &[u8], out: &mut [u8]) {
        let Some((news_id, reject_text)) = texts.split_at_checked(width::NEWS_ID) else {
            return;
        };
        self.resend_type.put(out, resend::RESEND_TYPE);
        self.channel.put(out, resend::CHANNEL);
        self.first_number.put(out, resend::FIRST_NUMBER);
        self.last_number.put(out, resend::LAST_NUMBER);
        wire::copy(out, resend::NEWS_ID, news_id);
        self.status.put(out, resend::STATUS);
        wire::copy(out, resend::REJECT_TEXT, reject_text);
    }

    ghost record_is = { λ x. refl };

    ghost texts_size_is = { unfold text_size in refl };
}
