// Examples of what no clause says.
use dk_arith::*;

#[test]
fn divides_directions_to_lowest_terms(rt: HostRuntime) {
    assert!(rt; gcd_of(12, 18) == 6 && gcd_of(0, 7) == 7 && gcd_of(0, 0) == 0);
    assert!(rt; gcd_wide(1 << 100, 3 << 90) == 1 << 90);
    let direction = lowest(-14, 2, 0);
    assert!(rt; direction.a == 7 && direction.b == -1 && direction.c == 0);
    assert!(rt; value_at(7, -1, 2, -2) == 16);
}
