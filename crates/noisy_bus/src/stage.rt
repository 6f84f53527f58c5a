//! Where a chip stands between two cycles.
ghost use Rattle.std.specs.Prelude.{◌≡◌};
ghost use Rattle.noisy_bus.specs.Bus.{address_after, loading_at, weight};

/// Where a chip stands between two cycles. (ONFI 1.0, basic commands.)
#[derive(Clone, Copy)]
pub enum Stage {
    /// No command is unfinished, and nothing is put out.
    Idle,
    /// A command takes its address: its code, how many bytes came, and the row that they come to.
    Address { code: u8, count: u8, row: u32 },
    /// The bytes of a page come in.
    Loading { row: u32 },
    /// Bytes are put out.
    Putting,
}

// What a byte of an address counts for in the row. A page's address has two bytes of a column first, which is 0 for whole pages.
fn weight(code: u8, count: u8) -> u32
    ensures { result ≡ weight code count }
{
    let place = if code == 0x60 {
        count.wrapping_add(2)
    } else {
        count
    };
    match place {
        2 => 1,
        3 => 256,
        4 => 65536,
        _ => 0,
    }
}

impl Stage {
    /// After one more byte of the address.
    pub fn with_address(self, byte: u8) -> Stage
        ensures { result ≡ address_after self byte }
    {
        match self {
            Stage::Address { code, count, row } => Stage::Address {
                code,
                count: count.wrapping_add(1),
                row: row.wrapping_add(weight(code, count).wrapping_mul(u32::from(byte))),
            },
            _ => self,
        }
    }

    /// The bytes of a page come in where its whole address has come.
    pub fn loading(self) -> Stage
        ensures { result ≡ loading_at self }
    {
        match self {
            Stage::Address {
                code: 0x80,
                count: 5,
                row,
            } => Stage::Loading { row },
            _ => self,
        }
    }
}
