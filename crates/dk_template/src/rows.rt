//! The numbers of the rows, by their names.

/// The values of x.
pub const ONE_OF_INT: u8 = 1;

/// The least value of x.
pub const LOWER_BOUND: u8 = 2;

/// The greatest value of x.
pub const UPPER_BOUND: u8 = 3;

/// x isn't 0.
pub const NON_ZERO: u8 = 4;

/// The modulus of x.
pub const MODULUS: u8 = 5;

/// The value of x.
pub const ONE_OF_BOOL: u8 = 6;

/// The value of x.
pub const ONE_OF_HASH: u8 = 7;

/// x isn't 0.
pub const NON_NULL_HASH: u8 = 8;

/// The values of x.
pub const ONE_OF_STR: u8 = 9;

/// x isn't `null`.
pub const NON_NULL_STR: u8 = 10;

/// x = y.
pub const EQ_INT: u8 = 11;

/// x differs from y.
pub const NE_INT: u8 = 12;

/// x < y.
pub const LT: u8 = 13;

/// x <= y.
pub const LE: u8 = 14;

/// The line through the points (x, y).
pub const LINEAR: u8 = 15;

/// y isn't 0 and divides x.
pub const DIVIDES: u8 = 16;

/// x = y * y.
pub const SQUARE: u8 = 17;

/// x = y.
pub const EQ_BOOL: u8 = 18;

/// x differs from y.
pub const NE_BOOL: u8 = 19;

/// x = y.
pub const EQ_HASH: u8 = 20;

/// x differs from y.
pub const NE_HASH: u8 = 21;

/// x = y.
pub const EQ_STR: u8 = 22;

/// x differs from y.
pub const NE_STR: u8 = 23;

/// z = x + y.
pub const SUM: u8 = 24;

/// z = x - y.
pub const DIFFERENCE: u8 = 25;

/// z = x * y.
pub const PRODUCT: u8 = 26;

/// z is the smaller of x, y.
pub const MINIMUM: u8 = 27;

/// z is the greater of x, y.
pub const MAXIMUM: u8 = 28;

/// y isn't 0, and z is x / y cut towards 0.
pub const QUOTIENT: u8 = 29;

/// y isn't 0, and z is the remainder of x / y cut towards 0.
pub const REMAINDER: u8 = 30;

/// z is the bitwise and of x, y.
pub const AND: u8 = 31;

/// z is the bitwise or of x, y.
pub const OR: u8 = 32;

/// z is the bitwise exclusive or of x, y.
pub const XOR: u8 = 33;

/// z is the greatest common divisor of x, y.
pub const GCD: u8 = 34;

/// The elements of s.
pub const ELT_ONE_OF_INT: u8 = 35;

/// The least element of s.
pub const ELT_LOWER: u8 = 36;

/// The greatest element of s.
pub const ELT_UPPER: u8 = 37;

/// No element is 0.
pub const ELT_NON_ZERO: u8 = 38;

/// Each element < the next.
pub const SORTED_LT: u8 = 39;

/// Each element <= the next.
pub const SORTED_LE: u8 = 40;

/// Each element > the next.
pub const SORTED_GT: u8 = 41;

/// Each element >= the next.
pub const SORTED_GE: u8 = 42;

/// Each element = the next.
pub const ELTS_EQUAL: u8 = 43;

/// The element of s.
pub const ELT_ONE_OF_BOOL: u8 = 44;

/// The element of s.
pub const ELT_ONE_OF_HASH: u8 = 45;

/// No element is 0.
pub const ELT_NON_NULL_HASH: u8 = 46;

/// The elements of s.
pub const ELT_ONE_OF_STR: u8 = 47;

/// No element is `null`.
pub const ELT_NON_NULL_STR: u8 = 48;

/// x is an element of s.
pub const MEMBER_INT: u8 = 49;

/// x is an element of s.
pub const MEMBER_HASH: u8 = 50;

/// x is an element of s.
pub const MEMBER_STR: u8 = 51;

/// Each element of s = x.
pub const ELT_EQ: u8 = 52;

/// Each element of s < x.
pub const ELT_LT: u8 = 53;

/// Each element of s <= x.
pub const ELT_LE: u8 = 54;

/// Each element of s > x.
pub const ELT_GT: u8 = 55;

/// Each element of s >= x.
pub const ELT_GE: u8 = 56;

/// s = t.
pub const EQ_INT_SEQ: u8 = 57;

/// s = t.
pub const EQ_BOOL_SEQ: u8 = 58;

/// s = t.
pub const EQ_HASH_SEQ: u8 = 59;

/// s = t.
pub const EQ_STR_SEQ: u8 = 60;

/// Equal lengths, and each element of s < its partner in t.
pub const PAIR_LT: u8 = 61;

/// Equal lengths, and each element of s <= its partner in t.
pub const PAIR_LE: u8 = 62;

/// Each element of s is one of t.
pub const SUBSET_INT: u8 = 63;

/// Each element of s is one of t.
pub const SUBSET_HASH: u8 = 64;

/// Each element of s is one of t.
pub const SUBSET_STR: u8 = 65;

/// s read backwards is t.
pub const REVERSE: u8 = 66;

/// The plane through the points (x, y, z).
pub const LINEAR_TERNARY: u8 = 67;

/// By how much the elements of t are greater than those of s.
pub const PAIR_OFFSET: u8 = 68;
