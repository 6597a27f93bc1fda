// An entry of a list by its number, counted from 1: read, and written. Any number may be asked.
#![tactic(auto)]

ghost use Rattle.std.specs.Prelude.{◌≡◌, ◌-◌, set};
ghost use Rattle.model.specs.Numbers.{entry, at};
ghost use Rattle.plan_text.specs.Draft.{put};

// The entry; `none` where there is none.
fn entry<T: Copy>(xs: &[T], number: u32, none: T) -> T
    ensures { result ≡ entry xs.now number none }
{
    if number < 1 {
        return none;
    }
    xs.get((number - 1) as usize).copied().unwrap_or(none)
}

// The list with x for the entry, and as it was where that is beyond its last; 0 counts as 1.
fn put<T: Copy>(xs: &mut [T], number: u32, x: T)
    ensures { xs.new ≡ set xs.old (number - 1) x }
{
    let i = number.saturating_sub(1) as usize;
    if i < xs.len() {
        xs[i] = x;
    }
}

// The entry; 0 where there is none, since `at` is what the plan text's definitions read.
pub fn entry_of(xs: &[u8], number: u32) -> u32
    ensures { result ≡ at xs.now number }
{
    u32::from(entry(xs, number, 0))
}

// The bound of a row; the same.
pub fn bound_of(bounds: &[u16], row: u32) -> u32
    ensures { result ≡ at bounds.now row }
{
    u32::from(entry(bounds, row, 0))
}

// The list with x for the entry.
pub fn put_entry(xs: &mut [u8], number: u32, x: u8)
    ensures { xs.new ≡ put xs.old number x }
{
    put(xs, number, x);
}

// The bounds with x for that of a row.
pub fn put_bound(bounds: &mut [u16], row: u32, x: u16)
    ensures { bounds.new ≡ put bounds.old row x }
{
    put(bounds, row, x);
}
