// Laws of the spelling of keys: each function's contract is one, and its body does nothing.
ghost use Rattle.ann_key.specs.KeyLaws.{OneSpelling, OneReading, BasesStand, ChunksDiffer, ErrorsExclude};

pub fn one_spelling()
    ensures { OneSpelling }
{}

pub fn one_reading()
    ensures { OneReading }
{}

pub fn bases_stand()
    ensures { BasesStand }
{}

pub fn chunks_differ()
    ensures { ChunksDiffer }
{}

pub fn errors_exclude()
    ensures { ErrorsExclude }
{}
