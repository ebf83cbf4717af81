// The laws of the field. Each is the contract of a function that does nothing.
ghost use Rattle.gf64.specs.Laws.{IsConvolution, IsRemainder, Commutes, Associates, Distributes, OneIsNeutral, HasNoZeroDivisors, SquaresReturn, HasTwoIdempotents};

/// The product of two polynomials has the coefficients that the product of their coefficient lists has, modulo 2.
pub fn polynomials_are_multiplied()
    ensures { IsConvolution }
{}

/// The product of two elements is the remainder of their polynomials' product by the modulus.
pub fn product_is_a_remainder()
    ensures { IsRemainder }
{}

/// The product is commutative.
pub fn product_commutes()
    ensures { Commutes }
{}

/// The product is associative.
pub fn product_associates()
    ensures { Associates }
{}

/// The product distributes over the sum.
pub fn product_distributes()
    ensures { Distributes }
{}

/// 1 is neutral: a product with 1 is the other factor.
pub fn one_is_neutral()
    ensures { OneIsNeutral }
{}

/// There are no zero divisors: a product is 0 only if a factor is.
pub fn no_zero_divisors()
    ensures { HasNoZeroDivisors }
{}

/// Squaring an element 64 times gives the element back.
pub fn squares_return()
    ensures { SquaresReturn }
{}

/// 0 and 1 are the only elements that are their own squares.
pub fn two_idempotents()
    ensures { HasTwoIdempotents }
{}
