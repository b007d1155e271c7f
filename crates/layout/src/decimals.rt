// How many decimals the kinds of fields have that have some: a field's number is its value times ten to their power.
ghost use Rattle.std.specs.Prelude.{◌≡◌};
ghost use Rattle.layout.specs.Kind as kind;
ghost use Rattle.layout.specs.Kind.{decimals};

// The price of an order or a trade, or a previous close.
pub const PRICE: usize = 4;

pub const ENTRY_PRICE: usize = 6;

// A quantity, size or volume.
pub const QUANTITY: usize = 2;

pub const AMOUNT: usize = 4;

// Each as a call, by the name that docs/PROMISES.md has.
pub fn price() -> usize
    ensures { (result ≡ decimals kind.order_price) × (result ≡ decimals kind.trade_price) × (result ≡ decimals kind.previous_close) }
{
    PRICE
}

pub fn entry_price() -> usize
    ensures { result ≡ decimals kind.entry_price }
{
    ENTRY_PRICE
}

pub fn quantity() -> usize
    ensures { result ≡ decimals kind.quantity }
{
    QUANTITY
}

pub fn amount() -> usize
    ensures { result ≡ decimals kind.amount }
{
    AMOUNT
}
