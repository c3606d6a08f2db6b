//! Laws of the arithmetic, each the contract of a function.

ghost use Rattle.words.specs.Laws.{AddedBack, MarkedOnce, SumsExact, ExtensionExact, ProductExact, DivisionAddsUp, RemainderSmall, SumExamples, ProductExamples};

/// What was added and is subtracted again leaves the number.
#[tactic(auto, unfolding(crate::specs::Sums::sum, crate::specs::Sums::difference))]
pub fn added_back()
    ensures { AddedBack }
{}

/// No number is marked both positive and negative.
#[tactic(auto, unfolding(crate::specs::Sums::marks))]
pub fn marked_once()
    ensures { MarkedOnce }
{}

/// Without overflow a fullword holds the signed sum and difference.
#[tactic(auto, unfolding(crate::specs::Sums::sum, crate::specs::Sums::difference))]
pub fn sums_exact()
    ensures { SumsExact }
{}

/// The fullword of a halfword holds its signed number.
#[tactic(auto, unfolding(crate::specs::Sums::extended))]
pub fn extension_exact()
    ensures { ExtensionExact }
{}

/// The pair of a product holds the signed product.
#[tactic(auto, using(crate::proofs::Multiples::product_exact_lem))]
pub fn product_exact()
    ensures { ProductExact }
{}

/// The dividend is the quotient times the divisor plus the remainder, which is smaller than the divisor and has the dividend's sign.
pub fn division_adds_up()
    ensures total { DivisionAddsUp }
    ensures small { RemainderSmall }
{}

/// Worked values.
#[tactic(auto, unfolding(crate::specs::Sums::marks, crate::specs::Sums::sum, crate::specs::Sums::sum_code, crate::specs::Sums::difference, crate::specs::Sums::difference_code, crate::specs::Products::product, crate::specs::Products::product_high, crate::specs::Products::product_low, crate::specs::Products::quotient, crate::specs::Products::remainder, crate::specs::Products::divided))]
pub fn examples()
    ensures sums { SumExamples }
    ensures products { ProductExamples }
{}
