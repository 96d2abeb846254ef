//! Sums, read item by item (CSS Values 4, section 10.8).
ghost use Rattle.query_units.specs.inner.CalcItems.{item_view};
ghost use Rattle.query_units.specs.inner.CalcValues.{calc_value_view, operator_view};
ghost use Rattle.query_units.specs.inner.Sums.{after_sign, factor_after, joined_to, product_after, sum_after, TakesItem};
ghost use Rattle.std.specs.Prelude.{◌≡◌, [], ◌∷◌, IfOk, IsTrue, List, None, Some, option_map};
ghost use Rattle.value_model.specs.CalculationGrammar as grammar;

use crate::calc_value::{CalcValue, Operator};
use crate::item::Item;
use port_core::NoMemory;
use std::alloc::Global;

/// A value, and an operator after it.
#[derive(Debug, Drop)]
pub(crate) struct Pending {
    /// The value.
    pub(crate) value: CalcValue,
    /// The operator.
    pub(crate) operator: Operator,
}

impl Pending {
    /// The value of both, where `w` comes after the operator.
    fn join(self, alloc: Global, w: CalcValue) -> Result<Option<CalcValue>, NoMemory>
        ensures { IfOk result (λ u. option_map calc_value_view u
            ≡ grammar.value_of_operator (operator_view self.operator)
            (calc_value_view self.value) (calc_value_view w)) }
    {
        let Pending { value, operator } = self;
        operator.value(alloc, value, w)
    }
}

/// What was read of a product.
#[derive(Debug, Drop)]
pub(crate) enum Product {
    /// Nothing.
    Empty,
    /// Factors with an operator after each.
    Open(Pending),
    /// Factors with an operator between them.
    Whole(CalcValue),
    /// What no product begins with.
    Invalid,
}

impl Product {
    /// Takes a factor.
    fn take_value(self, alloc: Global, v: CalcValue) -> Result<Product, NoMemory>
        ensures { IfOk result (λ p. (items : List grammar.CalcItem) → factor_after p items
            ≡ factor_after self (grammar.value (Some (calc_value_view v)) ∷ items)) }
    {
        match self {
            Product::Empty => Ok(Product::Whole(v)),
            Product::Open(pending) => match pending.join(alloc, v)? {
                Some(w) => Ok(Product::Whole(w)),
                None => Ok(Product::Invalid),
            },
            Product::Whole(_) | Product::Invalid => Ok(Product::Invalid),
        }
    }

    /// Takes `*` or `/`.
    fn take_operator(self, operator: Operator) -> Product
        requires { IsTrue (grammar.is_product_operator (operator_view operator)) }
        ensures { (items : List grammar.CalcItem) → product_after result items
            ≡ product_after self (grammar.operator (operator_view operator) ∷ items) }
    {
        match self {
            Product::Whole(value) => Product::Open(Pending { value, operator }),
            _ => Product::Invalid,
        }
    }

    /// The value of the product, if it is one.
    fn finish(self) -> Option<CalcValue>
        ensures { option_map calc_value_view result ≡ factor_after self [] }
    {
        match self {
            Product::Whole(value) => Some(value),
            _ => None,
        }
    }
}

/// What stands last.
#[derive(Clone, Copy, Debug, PartialEq, Eq)]
pub(crate) enum Last {
    /// A value, an operator other than `+` and `-`, or nothing.
    Other,
    /// White space.
    White,
    /// `+` or `-`.
    Sign,
}

/// What was read of a sum.
#[derive(Debug, Drop)]
pub(crate) struct Sum {
    /// The terms with `+` or `-` after each.
    pub(crate) terms: Option<Pending>,
    /// The last term.
    pub(crate) product: Product,
    /// What stands last.
    pub(crate) last: Last,
}

impl Sum {
    /// Nothing was read.
    #[tactic(auto, unfolding(crate::specs::inner::Sums::sum_after))]
    pub(crate) fn new() -> Sum
        ensures { (items : List grammar.CalcItem) → sum_after result items ≡ grammar.sum_of items }
    {
        Sum {
            terms: None,
            product: Product::Empty,
            last: Last::Other,
        }
    }

    /// What no sum begins with was read.
    fn invalid() -> Sum
        ensures { (items : List grammar.CalcItem) → sum_after result items ≡ None }
    {
        Sum {
            terms: None,
            product: Product::Invalid,
            last: Last::Other,
        }
    }

    /// Takes an item.
    pub(crate) fn take(self, alloc: Global, item: Item) -> Result<Sum, NoMemory>
        ensures { IfOk result (λ d. TakesItem self (item_view item) d) }
    {
        match item {
            Item::White => Ok(self.take_white()),
            Item::Value(Some(v)) => self.take_value(alloc, v),
            Item::Value(None) => Ok(self.take_none()),
            Item::Operator(Operator::Separate) => Ok(self.take_comma()),
            Item::Operator(Operator::Add) => self.take_sign(alloc, Operator::Add),
            Item::Operator(Operator::Subtract) => self.take_sign(alloc, Operator::Subtract),
            Item::Operator(Operator::Multiply) => Ok(self.take_factor(Operator::Multiply)),
            Item::Operator(Operator::Divide) => Ok(self.take_factor(Operator::Divide)),
        }
    }

    /// Takes white space.
    fn take_white(self) -> Sum
        ensures { TakesItem self grammar.white result }
    {
        Sum {
            terms: self.terms,
            product: self.product,
            last: Last::White,
        }
    }

    /// Takes a component value that is none of a calculation.
    fn take_none(self) -> Sum
        ensures { TakesItem self (grammar.value None) result }
    {
        Sum::invalid()
    }

    /// Takes a comma.
    fn take_comma(self) -> Sum
        ensures { TakesItem self (grammar.operator grammar.separate) result }
    {
        Sum::invalid()
    }

    /// Takes a value.
    fn take_value(self, alloc: Global, v: CalcValue) -> Result<Sum, NoMemory>
        ensures { IfOk result (λ d. TakesItem self (grammar.value (Some (calc_value_view v))) d) }
    {
        let Sum {
            terms,
            product,
            last,
        } = self;
        if last == Last::Sign {
            return Ok(Sum::invalid());
        }
        let product = product.take_value(alloc, v)?;
        Ok(Sum {
            terms,
            product,
            last: Last::Other,
        })
    }

    /// Takes `*` or `/`.
    fn take_factor(self, operator: Operator) -> Sum
        requires { IsTrue (grammar.is_product_operator (operator_view operator)) }
        ensures { TakesItem self (grammar.operator (operator_view operator)) result }
    {
        let Sum {
            terms,
            product,
            last,
        } = self;
        if last == Last::Sign {
            return Sum::invalid();
        }
        Sum {
            terms,
            product: product.take_operator(operator),
            last: Last::Other,
        }
    }

    /// Takes `+` or `-`.
    fn take_sign(self, alloc: Global, operator: Operator) -> Result<Sum, NoMemory>
        requires { IsTrue (grammar.is_sign (operator_view operator)) }
        ensures { IfOk result (λ d. TakesItem self (grammar.operator (operator_view operator)) d) }
    {
        let Sum {
            terms,
            product,
            last,
        } = self;
        if last != Last::White {
            return Ok(Sum::invalid());
        }
        let value = joined(alloc, terms, product.finish())?;
        Ok(Sum::opened(value, operator))
    }

    /// A value, and then `+` or `-`.
    fn opened(value: Option<CalcValue>, operator: Operator) -> Sum
        ensures { (items : List grammar.CalcItem) → sum_after result items
            ≡ after_sign (option_map calc_value_view value) (operator_view operator) items }
    {
        match value {
            Some(value) => Sum {
                terms: Some(Pending { value, operator }),
                product: Product::Empty,
                last: Last::Sign,
            },
            None => Sum::invalid(),
        }
    }

    /// The value of the sum, if it is one.
    pub(crate) fn finish(self, alloc: Global) -> Result<Option<CalcValue>, NoMemory>
        ensures { IfOk result (λ u. option_map calc_value_view u ≡ sum_after self []) }
    {
        let Sum {
            terms,
            product,
            last,
        } = self;
        if last == Last::Sign {
            return Ok(None);
        }
        let value = joined(alloc, terms, product.finish())?;
        Ok(value)
    }
}

/// The value of terms and a last one, if there is one.
fn joined(
    alloc: Global,
    terms: Option<Pending>,
    value: Option<CalcValue>,
) -> Result<Option<CalcValue>, NoMemory>
    ensures { IfOk result (λ u. option_map calc_value_view u
        ≡ joined_to terms (option_map calc_value_view value)) }
{
    match (terms, value) {
        (_, None) => Ok(None),
        (None, Some(v)) => Ok(Some(v)),
        (Some(pending), Some(v)) => pending.join(alloc, v),
    }
}
