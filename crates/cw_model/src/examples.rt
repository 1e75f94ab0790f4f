//! Worked examples, each proved by computing.

ghost use Rattle.cw_model.specs.Examples.{CallExamples, ArrayExamples, DeepExamples, ChainExamples, FaultExamples, LimitExamples, TreeExamples, SizeExamples};
ghost use Rattle.cw_model.specs.ExampleTypes.{ExpressionTypeExamples, WriteTypeExamples, CallTypeExamples, HeadTypeExamples, BlockTypeExamples, GlobalTypeExamples};
ghost use Rattle.cw_model.specs.ExampleOwners.{TakenExamples, FreedExamples, LoopOwnerExamples};
ghost use Rattle.cw_model.specs.ExampleConsts.{ConstTypeExamples, FrozenExamples, ThawedExamples, ReadRunExamples};
ghost use Rattle.cw_model.specs.ExampleReducers.{TotalExamples, ToldExamples};
ghost use Rattle.cw_model.specs.ExampleSizes.{TokenSizeExamples, DeclarationSizeExamples, InstructionSizeExamples};
ghost use Rattle.cw_model.specs.ExampleValues.{OperatorExamples, TrapExamples};
ghost use Rattle.cw_model.specs.ExampleStatements.{EffectExamples, CostExamples, JoinExamples, LoweredExamples, LoopExamples, CaptureExamples};
ghost use Rattle.cw_model.specs.ExampleRows.{RowExamples, TextExamples};
ghost use Rattle.cw_model.specs.ExampleGains.{GainExamples};

/// States worked examples of calls, spawns, prints, sums, operators and regions: texts, costs, traps and limits.
pub fn calls_and_sums()
    ensures { CallExamples }
{}

/// States worked examples of arrays, cuts and loops: texts, costs, traps and limits.
pub fn arrays_and_loops()
    ensures { ArrayExamples }
{}

/// States worked examples of deeply nested calls and signs.
pub fn deep_calls()
    ensures { DeepExamples }
{}

/// States worked examples of a chain of calls, each spawned by the call before it.
pub fn long_chains()
    ensures { ChainExamples }
{}

/// States worked examples of accepted programs, and of rejected programs with their lines.
pub fn refusals()
    ensures { FaultExamples }
{}

/// States worked examples of programs that exceed a limit, with their lines.
pub fn limits()
    ensures { LimitExamples }
{}

/// States worked examples of the strand trees of runs.
pub fn strand_trees()
    ensures { TreeExamples }
{}

/// States worked examples of static sizes and of numbers of call statements.
pub fn static_sizes()
    ensures { SizeExamples }
{}

/// States worked examples of the rules of names and types; each rejected program breaks one rule.
pub fn names_and_types()
    ensures expressions { ExpressionTypeExamples }
    ensures writes { WriteTypeExamples }
    ensures calls { CallTypeExamples }
    ensures heads { HeadTypeExamples }
    ensures blocks { BlockTypeExamples }
    ensures globals { GlobalTypeExamples }
{}

/// States worked examples of the rules of ownership; each rejected program breaks one rule.
pub fn ownership()
    ensures taken { TakenExamples }
    ensures freed { FreedExamples }
    ensures loops { LoopOwnerExamples }
{}

/// States worked examples of arrays that several calls read: the rules, where each rejected program breaks one, and
/// runs.
pub fn read_together()
    ensures types { ConstTypeExamples }
    ensures frozen { FrozenExamples }
    ensures thawed { ThawedExamples }
    ensures runs { ReadRunExamples }
{}

/// States worked examples of reducers of both kinds: their totals, and the values that may update them.
pub fn reducers()
    ensures totals { TotalExamples }
    ensures told { ToldExamples }
{}

/// States worked examples of limits and sizes: the last value within each limit, and the first value beyond it.
pub fn sizes()
    ensures tokens { TokenSizeExamples }
    ensures declarations { DeclarationSizeExamples }
    ensures instructions { InstructionSizeExamples }
{}

/// States worked examples of expressions: their values, their costs and their traps.
pub fn values()
    ensures operators { OperatorExamples }
    ensures traps { TrapExamples }
{}

/// States worked examples of statements: their effects, costs and joins, and the names that loops capture.
pub fn statements()
    ensures effects { EffectExamples }
    ensures costs { CostExamples }
    ensures joins { JoinExamples }
    ensures lowered { LoweredExamples }
    ensures loops { LoopExamples }
    ensures captures { CaptureExamples }
{}

/// States worked examples of rows of tags and sites, and of complete reports.
pub fn rows_and_texts()
    ensures rows { RowExamples }
    ensures texts { TextExamples }
{}

/// States worked examples of the gains of functions: the spans if their instructions took no time.
pub fn gains()
    ensures { GainExamples }
{}
