//! What a disk is asked, and the wrapper in which a command goes to it (Bulk-Only Transport, 5.1).
ghost use Rattle.std.specs.Prelude.{◌≡◌};
ghost use Rattle.usb_class_drivers.specs.Commands.{block_of, is_in, moving_block, size_of, wrapper};

/// What a disk is asked. A block is as long as the disk says (`Capacity`).
#[derive(Clone, Copy, Debug, PartialEq, Eq)]
pub enum Command {
    /// INQUIRY: who it is, in 36 bytes.
    Inquiry,
    /// READ CAPACITY (10): the number of its last block, and how many bytes a block has.
    Capacity,
    /// READ (10): these blocks.
    Read {
        /// The number of the first block.
        first: u32,
        /// How many blocks.
        blocks: u16,
    },
    /// WRITE (10): these blocks.
    Write {
        /// The number of the first block.
        first: u32,
        /// How many blocks.
        blocks: u16,
    },
}

impl Command {
    /// Whether its data come from the disk.
    pub(crate) fn is_in(self) -> bool
        ensures { result ≡ is_in self }
    {
        match self {
            Command::Inquiry | Command::Capacity | Command::Read { .. } => true,
            Command::Write { .. } => false,
        }
    }

    /// How many bytes of its block count.
    fn size(self) -> u8
        ensures { result ≡ size_of self }
    {
        match self {
            Command::Inquiry => 6,
            Command::Capacity | Command::Read { .. } | Command::Write { .. } => 10,
        }
    }

    /// Its block: the first byte says what is asked, and zeros fill it up.
    fn block(self) -> [u8; 16]
        ensures { result ≡ block_of self }
    {
        match self {
            Command::Inquiry => [0x12, 0, 0, 0, 36, 0, 0, 0, 0, 0, 0, 0, 0, 0, 0, 0],
            Command::Capacity => [0x25, 0, 0, 0, 0, 0, 0, 0, 0, 0, 0, 0, 0, 0, 0, 0],
            Command::Read { first, blocks } => moving_block(0x28, first, blocks),
            Command::Write { first, blocks } => moving_block(0x2a, first, blocks),
        }
    }

    /// The wrapper of the command, with its tag and the number of its data bytes.
    pub(crate) fn wrapper(self, tag: u32, length: u32) -> [u8; 31]
        ensures { result ≡ wrapper tag length self }
    {
        let [t0, t1, t2, t3] = tag.to_le_bytes();
        let [l0, l1, l2, l3] = length.to_le_bytes();
        let way = if self.is_in() { 0x80 } else { 0 };
        let [a, b, c, d, e, f, g, h, i, j, k, l, m, n, o, p] = self.block();
        let size = self.size();
        [
            0x55, 0x53, 0x42, 0x43, t0, t1, t2, t3, l0, l1, l2, l3, way, 0, size, a, b, c, d, e, f,
            g, h, i, j, k, l, m, n, o, p,
        ]
    }
}

/// The block of a command that moves blocks.
fn moving_block(code: u8, first: u32, blocks: u16) -> [u8; 16]
    ensures { result ≡ moving_block code first blocks }
{
    let [f0, f1, f2, f3] = first.to_be_bytes();
    let [b0, b1] = blocks.to_be_bytes();
    [code, 0, f0, f1, f2, f3, 0, b0, b1, 0, 0, 0, 0, 0, 0, 0]
}
