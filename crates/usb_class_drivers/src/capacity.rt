//! How large a disk is.
ghost use Rattle.std.specs.Prelude.{◌≡◌, ◌≢◌, ◌*◌, ◌≤◌, ℕ, IfSome, IfNone};
ghost use Rattle.usb_class_drivers.specs.Capacities.{IsNoCapacity, capacity_bytes};

/// The most bytes of a block.
const BLOCK_LIMIT: u32 = 2048;

/// How large a disk is.
#[derive(Clone, Copy, Debug, PartialEq, Eq)]
pub struct Capacity {
    /// The number of its last block.
    pub last: u32,
    /// How many bytes a block has, 1 to 2,048.
    pub block: u16,
    ghost block_range: { (1 ≤ block) × (block ≤ 2048) },
}

impl Capacity {
    /// How many blocks have so many bytes; `None` if they are not whole, or more than 255.
    pub(crate) fn blocks_of(self, bytes: usize) -> Option<u8>
        ensures some { IfSome result (λ blocks. bytes ≡ blocks * self.block) }
        ensures none { IfNone result ((blocks : ℕ) → blocks ≤ 255 → bytes ≢ blocks * self.block) }
    {
        let block = usize::from(self.block);
        if bytes % block != 0 {
            return None;
        }
        let blocks = bytes / block;
        if blocks > 255 {
            return None;
        }
        Some(blocks as u8)
    }
}

/// What a disk answers to READ CAPACITY (10); `None` if it has other than 8 bytes, or the blocks have
/// no byte or more than 2,048.
pub(crate) fn capacity_of(bytes: &[u8]) -> Option<Capacity>
    ensures some { IfSome result (λ capacity.
        bytes.now ≡ capacity_bytes capacity.last capacity.block) }
    ensures none { IfNone result (IsNoCapacity bytes.now) }
{
    let [l0, l1, l2, l3, b0, b1, b2, b3] = bytes else {
        return None;
    };
    let last = u32::from_be_bytes([*l0, *l1, *l2, *l3]);
    let block = u32::from_be_bytes([*b0, *b1, *b2, *b3]);
    if block < 1 || block > BLOCK_LIMIT {
        return None;
    }
    Some(Capacity {
        last,
        block: block as u16,
    })
}
