// The generated input, by an independent writing of its rule.
use dk_generate::generate;
use std::test::Fail;

// Numbers, and the length and the Fowler-Noll-Vo hash (1a, 64 bits) of the text that is made from each.
static TEXTS: [(u64, usize, u64); 4] = [
    (0, 2230648, 1917592130138528988),
    (1, 2231507, 10958098518414578117),
    (42, 2231662, 17090402357372595714),
    (u64::MAX, 2232026, 12866727623791806373),
];

fn hash(bytes: &[u8]) -> u64 {
    let mut hash: u64 = 0xcbf2_9ce4_8422_2325;
    for byte in bytes {
        hash = (hash ^ u64::from(*byte)).wrapping_mul(0x0100_0000_01b3);
    }
    hash
}

#[test]
fn whole_text_is_as_written_elsewhere(rt: HostRuntime) -> Result<(), Fail> {
    for (n, len, its_hash) in TEXTS {
        let text = generate(rt.alloc(), n)?;
        assert_eq!(rt; text.len(), len, "{n}");
        assert_eq!(rt; hash(text.as_slice()), its_hash, "{n}");
    }
    Ok(())
}
