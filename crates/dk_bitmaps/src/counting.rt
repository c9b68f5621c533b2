// Counts by bitmaps.
ghost use Rattle.std.specs.Prelude.{◌≡◌, ◌&&◌, Bool, All, List, cond, count_by, length, sum_by};
ghost use Rattle.dk_presence.specs.Patterns.{capped};
ghost use Rattle.dk_presence.specs.declared.held.Held.{Held};
ghost use Rattle.dk_bitmaps.specs.Bitmaps.{AreDigitMaps, IsBitmap};

// How many patterns four bitmaps have in common.
fn common(a: &[u64], b: &[u64], c: &[u64], d: &[u64]) -> u64
    requires second { length b.now ≡ length a.now }
    requires third { length c.now ≡ length a.now }
    requires fourth { length d.now ≡ length a.now }
    ensures { (held : List Held) (p q r s : Held → Bool) → IsBitmap held p a.now → IsBitmap held q b.now → IsBitmap held r c.now → IsBitmap held s d.now → result ≡ capped (count_by (λ h. (p h && (q h && r h)) && s h) held) }
{
    let mut count: u64 = 0;
    for j in 0..a.len() {
        let word = a[j] & (b[j] & c[j]) & d[j];
        count = count.saturating_add(u64::from(word.count_ones()));
    }
    count
}

/// The sum of the counts of the patterns that three bitmaps have in common, by the bitmaps of the counts' binary digits.
pub(crate) fn common_sum(digits: &[Vec<u64>], a: &[u64], b: &[u64], c: &[u64]) -> u64
    requires second { length b.now ≡ length a.now }
    requires third { length c.now ≡ length a.now }
    requires digits { All (λ m. length m.items ≡ length a.now) digits.now }
    ensures { (held : List Held) (p q r : Held → Bool) → AreDigitMaps held digits.now → IsBitmap held p a.now → IsBitmap held q b.now → IsBitmap held r c.now → result ≡ capped (sum_by (λ h. cond (p h && (q h && r h)) h.count 0) held) }
{
    let mut sum: u64 = 0;
    let mut place = digits.len();
    while 0 < place {
        place -= 1;
        let ones = common(a, b, c, digits[place].as_slice());
        sum = sum.saturating_mul(2).saturating_add(ones);
    }
    sum
}
