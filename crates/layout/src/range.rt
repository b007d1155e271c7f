// Whether a number, read without a sign, is in the range of its kind. docs/PROMISES.md promises each by its name. Tests are joined by `&` and
// `|`, which don't branch: fields are judged at every read.
ghost use Rattle.std.specs.Prelude.{◌≡◌};
ghost use Rattle.layout.specs.Kind as kind;
ghost use Rattle.layout.specs.Kind.{ranged};

const HIGHEST: u64 = 9_223_372_036_854_775_807;

const HIGHEST_PRICE: u64 = 9_999_999_999_999;

const LOWEST_PRICE: u64 = 0xffff_ffff_ffff_ffff - HIGHEST_PRICE + 1;

const HIGHEST_ENTRY_PRICE: u64 = 999_999_999_999_999_999;

const LOWEST_ENTRY_PRICE: u64 = 0xffff_ffff_ffff_ffff - HIGHEST_ENTRY_PRICE + 1;

const HIGHEST_QUANTITY: u64 = 999_999_999_999_999;

const HIGHEST_AMOUNT: u64 = 999_999_999_999_999_999;

const TIME_LIMIT: u64 = 100_000_000_000_000_000;

// A record number.
pub fn number_in_range(v: u64) -> bool
    ensures { result ≡ ranged kind.number v }
{
    (1 <= v) & (v <= HIGHEST)
}

// A number that is at least 0: last, first, bid and offer number, trade and order count.
pub fn natural_in_range(v: u64) -> bool
    ensures { result ≡ ranged kind.last_number v }
{
    v <= HIGHEST
}

// The price of an order or a trade, or a previous close.
pub fn price_in_range(v: u64) -> bool
    ensures { result ≡ ranged kind.order_price v }
{
    (v <= HIGHEST_PRICE) | (LOWEST_PRICE <= v)
}

pub fn entry_price_in_range(v: u64) -> bool
    ensures { result ≡ ranged kind.entry_price v }
{
    (v <= HIGHEST_ENTRY_PRICE) | (LOWEST_ENTRY_PRICE <= v)
}

// A quantity, size or volume.
pub fn quantity_in_range(v: u64) -> bool
    ensures { result ≡ ranged kind.quantity v }
{
    v <= HIGHEST_QUANTITY
}

pub fn amount_in_range(v: u64) -> bool
    ensures { result ≡ ranged kind.amount v }
{
    v <= HIGHEST_AMOUNT
}

// YYYYMMDDHHMMSSsss.
pub fn time_in_range(v: u64) -> bool
    ensures { result ≡ ranged kind.time v }
{
    let date = v / 1_000_000_000;
    let clock = v % 1_000_000_000;
    let month = date / 100 % 100;
    let day = date % 100;
    let hour = clock / 10_000_000;
    let minute = clock / 100_000 % 100;
    let second = clock / 1_000 % 100;
    ((1 <= month) & (month <= 12))
        & (((1 <= day) & (day <= 31))
            & ((hour <= 23) & ((minute <= 59) & ((second <= 60) & (v < TIME_LIMIT)))))
}

pub fn yes_no_in_range(v: u16) -> bool
    ensures { result ≡ ranged kind.yes_no v }
{
    v <= 1
}

#[tactic(auto, unfolding(crate::specs::Kind::ranged))]
pub fn resend_type_in_range(v: u8) -> bool
    ensures { result ≡ ranged kind.resend_type v }
{
    matches!(v, 1..=2)
}

pub fn status_in_range(v: u8) -> bool
    ensures { result ≡ ranged kind.status v }
{
    v <= 4
}

#[tactic(auto, unfolding(crate::specs::Kind::ranged))]
pub fn side_in_range(v: u8) -> bool
    ensures { result ≡ ranged kind.side v }
{
    matches!(v, b'1' | b'2' | b'G' | b'F')
}

#[tactic(auto, unfolding(crate::specs::Kind::ranged))]
pub fn order_type_in_range(v: u8) -> bool
    ensures { result ≡ ranged kind.order_type v }
{
    matches!(v, b'1' | b'2' | b'U')
}

#[tactic(auto, unfolding(crate::specs::Kind::ranged))]
pub fn execution_in_range(v: u8) -> bool
    ensures { result ≡ ranged kind.execution v }
{
    matches!(v, b'4' | b'F')
}
