ghost use Rattle.std.specs.Prelude.{ℕ, IsTrue};
ghost use Rattle.outside.specs.Told.{Told, beside_last, bytes_of_last};

use crate::desk::Desk;
use crate::sink::{Failed, Sink};

/// The output of a desk that was begun last, as a sink.
#[derive(Drop)]
pub struct LastOutput<'a, D: Desk> {
    /// The desk, which has begun an output.
    pub desk: &'a mut D,
    ghost begun: { IsTrue (D.told desk.now).begun },
}

impl<D: Desk> Sink for LastOutput<'_, D> {
    ghost written = { λ s. bytes_of_last (D.told s.desk.now).outputs };

    ghost faults = { λ s. (D.told s.desk.now).faults };

    ghost Kept = { ℕ × Told };

    ghost kept = { λ s. (s.desk.ghost_name, beside_last (D.told s.desk.now)) };

    /// Adds bytes from the front of `piece` to the output, as the desk does.
    #[tactic(auto, using(crate::proofs::LastBytes::takes, crate::proofs::LastBytes::leaves))]
    fn write(&mut self, piece: &[u8]) -> Result<usize, Failed> {
        self.desk.write(piece)
    }
}
