//! Calls of functions, read item by item (CSS Values 4, sections 10.2 and 10.8).
ghost use Rattle.query_units.specs.inner.CalcItems.{is_comma_item, item_view};
ghost use Rattle.query_units.specs.inner.CalcValues.{calc_value_view};
ghost use Rattle.query_units.specs.inner.Calls.{call_after, function_view, TakesArgument};
ghost use Rattle.query_units.specs.inner.Sums.{sum_after, TakesItem};
ghost use Rattle.std.specs.Prelude.{◌≡◌, [], ◌∷◌, false, IfOk, List, None, option_and_then, option_map};
ghost use Rattle.value_model.specs.CalculationGrammar as grammar;

use crate::calc_value::{CalcValue, Operator};
use crate::functions::{Arguments, MathFunction};
use crate::item::Item;
use crate::sums::Sum;
use port_core::NoMemory;
use std::alloc::Global;

/// What was read of a call.
#[derive(Debug, Drop)]
pub(crate) struct Call {
    /// The arguments with a comma after each.
    pub(crate) arguments: Arguments,
    /// The last argument.
    pub(crate) sum: Sum,
}

impl Call {
    /// Nothing was read.
    #[tactic(auto, using(crate::proofs::CallSteps::first_of_call))]
    pub(crate) fn new() -> Call
        ensures { (f : MathFunction) (items : List grammar.CalcItem)
            → call_after result f items ≡ option_and_then (function_view f) (grammar.arguments_of items) }
    {
        Call {
            arguments: Arguments::Empty,
            sum: Sum::new(),
        }
    }

    /// What no function takes was read.
    #[tactic(auto, using(crate::proofs::CallSteps::invalid_call))]
    fn invalid() -> Call
        ensures { (f : MathFunction) (items : List grammar.CalcItem)
            → call_after result f items ≡ None }
    {
        Call {
            arguments: Arguments::Invalid,
            sum: Sum::new(),
        }
    }

    /// Takes an item.
    pub(crate) fn take(self, alloc: Global, item: Item) -> Result<Call, NoMemory>
        ensures { IfOk result (λ c. TakesArgument self (item_view item) c) }
    {
        if is_comma(&item) {
            self.take_comma(alloc)
        } else {
            self.take_other(alloc, item)
        }
    }

    /// Takes an item of an argument.
    #[tactic(auto, using(crate::proofs::CallSteps::item_step))]
    fn take_other(self, alloc: Global, item: Item) -> Result<Call, NoMemory>
        requires { is_comma_item (item_view item) ≡ false }
        ensures { IfOk result (λ c. TakesArgument self (item_view item) c) }
    {
        let Call { arguments, sum } = self;
        let sum = sum.take(alloc, item)?;
        Ok(Call { arguments, sum })
    }

    /// Takes a comma.
    fn take_comma(self, alloc: Global) -> Result<Call, NoMemory>
        ensures { IfOk result (λ c. TakesArgument self (grammar.operator grammar.separate) c) }
    {
        let Call { arguments, sum } = self;
        let last = sum.finish(alloc)?;
        match last {
            Some(v) => {
                let arguments = arguments.push(alloc, v)?;
                let sum = Sum::new();
                Ok(Call { arguments, sum })
            }
            None => Ok(Call::invalid()),
        }
    }

    /// The value of the call of a function.
    pub(crate) fn finish(
        self,
        alloc: Global,
        f: MathFunction,
    ) -> Result<Option<CalcValue>, NoMemory>
        ensures { IfOk result (λ v. option_map calc_value_view v ≡ call_after self f []) }
    {
        let Call { arguments, sum } = self;
        let last = sum.finish(alloc)?;
        match last {
            Some(v) => {
                let arguments = arguments.push(alloc, v)?;
                let value = arguments.value(alloc, f)?;
                Ok(value)
            }
            None => Ok(None),
        }
    }
}

/// Whether an item is a comma.
fn is_comma(item: &Item) -> bool
    ensures { result ≡ is_comma_item (item_view item.now) }
{
    match item {
        Item::Operator(operator) => *operator == Operator::Separate,
        _ => false,
    }
}
