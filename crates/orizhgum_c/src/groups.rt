// For C: the groups, by position.
ghost use Rattle.std.specs.Prelude.{◌≡◌};
ghost use Rattle.record.specs.Record.{group_of};
ghost use Rattle.orizhgum.specs.Groups.{group_answer};

use orizhgum::groups::Grouped;

#[unsafe(no_mangle)]
pub extern "C" fn orizhgum_group(kind: u32, body: &[u8], i: u32) -> Grouped
    ensures { result ≡ group_answer (group_of kind body.now i) }
{
    orizhgum::groups::orizhgum_group(kind, body, i)
}
