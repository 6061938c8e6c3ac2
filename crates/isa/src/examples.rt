// Worked examples of decoding, as one theorem on a function's contract.
ghost use Rattle.isa.specs.Laws.{DecodingExamples};

pub fn decoding_examples_hold()
    ensures { DecodingExamples }
{}
