// Which model gives which, as a table of bit rows, and what follows by chaining.
ghost use Rattle.std.specs.Prelude.{◌≡◌, ◌<◌};
ghost use Rattle.rows.specs.Relation.{related, Table};
ghost use Rattle.consistency.specs.Lattice.{implications, listed, follows};

use reach::closure;

// Pairs of models: row j has the models that give model j, model i being bit i.
#[derive(Drop)]
pub struct Pairs {
    rows: [u64; 14],
}

impl Pairs {
    // The eighteen pairs.
    const GIVEN: Pairs = Pairs {
        rows: [
            0,
            0,
            0b10,
            0b10,
            0b10_1000,
            0b10,
            0b1000,
            0b100_0000,
            0b101_0000,
            0b1_0000,
            0b1_0001_0100,
            0b1_0100,
            0b1_0000,
            0b1_1000_0000,
        ],
    };

    // The eighteen pairs.
    pub fn given() -> Pairs
        ensures { Table 14 1 (listed implications) result.rows }
    {
        Pairs::GIVEN
    }

    // Whatever follows by chaining them.
    pub fn following() -> Pairs
        ensures { Table 14 1 follows result.rows }
    {
        let mut pairs = Pairs::given();
        closure::close(&mut pairs.rows, 14, 1);
        pairs
    }

    // Whether i gives j. By number: row 0 and bit 0 are there too, of no model.
    pub fn has(&self, i: usize, j: usize) -> bool
        requires { (i < 14) × (j < 14) }
        ensures { result ≡ related self.now.rows 1 i j }
    {
        rows::test(&self.rows[j..j + 1], i)
    }
}
