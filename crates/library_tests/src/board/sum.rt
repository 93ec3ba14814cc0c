//! The sum of what came.
ghost use Rattle.std.specs.Prelude.{◌≡◌};

use shown_board::{Follower, Question};
use std::alloc::AllocError;

#[derive(Drop, Clone, Copy)]
pub struct Sum {
    pub total: u64,
}

impl Follower<u64> for Sum {
    ghost use Rattle.library_tests.specs.Sums.{nothing, plus};

    ghost start = { nothing };

    ghost after = { plus };

    fn follow(&mut self, event: &u64) -> Result<(), AllocError> {
        let Some(total) = self.total.checked_add(*event) else {
            return Err(AllocError);
        };
        self.total = total;
        Ok(())
    }
}

/// What the sum is.
pub struct AskTotal;

impl Question<Sum> for AskTotal {
    type Answer = u64;

    ghost use Rattle.std.specs.Prelude.{◌≡◌};

    ghost answers = { λ _ sum answer. answer ≡ sum.total };

    fn ask(&self, value: &Sum) -> u64 {
        value.total
    }
}
