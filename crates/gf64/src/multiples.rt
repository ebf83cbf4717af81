ghost use Rattle.std.specs.Prelude.{◌≡◌, ℕ, ◌<◌, ◌^◌};
ghost use Rattle.gf64.specs.Field.{product};
ghost use Rattle.gf64.specs.Multiples.{AreMultiples};

use crate::remainder::{doubled, reduce};
use std::marker::Model;

/// An element with its products by the 16 polynomials below x^4. They make further products with the element fast: each
/// takes 16 steps.
#[derive(Drop)]
pub struct Multiples {
    factor: u64,
    products: [u64; 16],
}

impl Model for Multiples {
    ghost Value = { ℕ };

    ghost view = { λ m. m.factor };

    ghost invariant = { λ m. (m.factor < 2 ^ 64) × AreMultiples m.factor 16 m.products };
}

impl Multiples {
    /// The element with its products.
    pub fn of(factor: u64) -> Self
        ensures { result ≡ factor }
    {
        Multiples {
            factor,
            products: products_of(factor),
        }
    }

    /// The product of the element and another one.
    #[tactic(auto, unfolding(crate::specs::Field::product))]
    pub fn times(&self, other: u64) -> u64
        ensures { result ≡ product self.now other }
    {
        let mut sum = 0u128;
        for i in 0..16u32 {
            let multiple = self.products[((other >> (4 * i)) % 16) as usize];
            sum ^= u128::from(multiple) << (4 * i);
        }
        reduce(sum)
    }
}

// The products of an element by the 16 polynomials below x^4, each at the index that stands for its polynomial.
fn products_of(factor: u64) -> [u64; 16]
    ensures { AreMultiples factor 16 result }
{
    let mut products = [0u64; 16];
    products[1] = factor;
    for i in 1..8usize {
        let even = doubled(products[i]);
        products[2 * i] = even;
        products[2 * i + 1] = even ^ factor;
    }
    products
}
