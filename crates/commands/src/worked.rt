//! Worked examples of how faults are printed. The prover computes them.

ghost use Rattle.std.specs.Prelude.{◌≡◌, ℕ, [], ◌∷◌, ◌++◌, map, codes, Vec, Some, None};
ghost use Rattle.std.specs.List.{range_with_len};
ghost use Rattle.std.specs.Global.{Global};
ghost use Rattle.cats_text.specs.declared.read_fault.Kind.TheVariants.{
  Header,
  NotANumber,
  TooLarge,
  ExtraBid,
  BidNumber,
  RepeatedNumber,
  TooFine,
  GoodRange as NoSuchGood,
  RepeatedGood,
  TwoDummies,
  EmptyBundle,
  NoEnd,
  AfterEnd,
  Missing,
  TooLong,
  Device,
  Memory as NoMemory,
};
ghost use Rattle.canon.specs.declared.canon_fault.CanonFault.TheVariants.{Read, StepLimit, Memory};
ghost use Rattle.canon.specs.declared.which.Which.TheVariants.{Only, First, Second, Both};
ghost use Rattle.analysis.specs.Examples.{file};
ghost use Rattle.commands.specs.FaultLines.{line_of_fault};
ghost use Rattle.commands.specs.Outputs.{bundle_text, list_cell};
ghost use Rattle.commands.specs.Statuses.{status_of_fault};
ghost use Rattle.commands.specs.declared.faults.Limit.TheVariants.{OfAll, OfEach};
ghost use Rattle.commands.specs.declared.faults.RunFault.TheVariants.{Refused, TooHeavy, GoodRange, BidRange, Sent};
ghost use Rattle.commands.specs.declared.faults.RunFault.TheVariants.{NotOpened, NotWritten};
ghost use Rattle.commands.specs.declared.faults.Unwritten.TheVariants.{Exists, NoSpace};
ghost use Rattle.commands.specs.declared.faults.Unopened.TheVariants.{NoSuchFile, PermissionDenied, IsFolder, NotAFile};
ghost use Rattle.commands.specs.declared.faults.Unopened.TheVariants.{Other};

/// How faults are reported.
pub fn fault_lines()
    ensures { map line_of_fault
        (Refused Only (Read (record { line = 5; kind = TwoDummies }))
        ∷ Refused First (Read (record { line = 5; kind = TwoDummies }))
        ∷ Refused Second (Read (record { line = 12; kind = NoEnd }))
        ∷ Refused Only (Read (record { line = 0; kind = TooLong }))
        ∷ Refused Second (Read (record { line = 0; kind = Device }))
        ∷ Refused First (Read (record { line = 0; kind = NoMemory }))
        ∷ Refused Both Memory ∷ Refused Only Memory ∷ GoodRange 2 ∷ BidRange 17
        ∷ Sent (record { written = 5 }) ∷ NotOpened Only NoSuchFile ∷ NotOpened Only PermissionDenied
        ∷ NotOpened Only IsFolder ∷ NotOpened Only NotAFile ∷ NotOpened Only Other ∷ NotOpened First Other
        ∷ NotWritten Exists ∷ NotWritten NoSpace ∷ []) ≡
        codes "line 5: TwoDummies\n" ∷ codes "first: line 5: TwoDummies\n"
        ∷ codes "second: line 12: NoEnd\n" ∷ codes "TooLong\n"
        ∷ codes "second: Device\n" ∷ codes "first: want of memory\n"
        ∷ codes "want of memory\n" ∷ codes "want of memory\n" ∷ codes "good 2 out of range\n"
        ∷ codes "bid 17 out of range\n"
        ∷ codes "output failed after 5 bytes\n" ∷ codes "cannot open: no such file\n"
        ∷ codes "cannot open: permission denied\n" ∷ codes "cannot open: is a folder: name it to 'fault', 'duplicates' or 'sizes'\n"
        ∷ codes "cannot open: not a file\n" ∷ codes "cannot open\n" ∷ codes "first: cannot open\n"
        ∷ codes "cannot write: it exists already\n" ∷ codes "cannot write: no space\n" ∷ [] }
{}

/// The statuses of these faults.
pub fn fault_statuses()
    ensures { map status_of_fault
        (Refused Only (Read (record { line = 5; kind = TwoDummies }))
        ∷ Refused Only (Read (record { line = 0; kind = TooLong }))
        ∷ Refused Second (Read (record { line = 0; kind = Device }))
        ∷ Refused First (Read (record { line = 0; kind = NoMemory }))
        ∷ Refused Both Memory ∷ Refused Only Memory ∷ GoodRange 2 ∷ BidRange 17
        ∷ Sent (record { written = 5 }) ∷ NotOpened Only NoSuchFile ∷ NotWritten NoSpace ∷ []) ≡
        2 ∷ 2 ∷ 5 ∷ 4 ∷ 4 ∷ 4 ∷ 64 ∷ 64 ∷ 5 ∷ 5 ∷ 5 ∷ [] }
{}

/// How a step limit is reported, whatever vector holds the goods, and its status.
pub fn step_limits()
    ensures bundle { (goods : Vec ℕ Global) → goods.items ≡ 0 ∷ 1 ∷ 2 ∷ []
        → line_of_fault (Refused Only (StepLimit goods)) ≡ codes "step limit at 0,1,2\n" }
    ensures no_goods { (goods : Vec ℕ Global) → goods.items ≡ [] → line_of_fault (Refused Only (StepLimit goods))
        ≡ codes "step limit at \n" }
    ensures first_file { (goods : Vec ℕ Global) → goods.items ≡ 4095 ∷ []
        → line_of_fault (Refused First (StepLimit goods)) ≡ codes "first: step limit at 4095\n" }
    ensures status { (goods : Vec ℕ Global) → status_of_fault (Refused Only (StepLimit goods)) ≡ 3 }
{}

/// How a command reports it that names the bid: with the limit of each search or of all together, and with 20 goods and
/// with 21, of the first file and the second.
pub fn heavy_bids()
    ensures of_each { (goods : Vec ℕ Global) → goods.items ≡ 0 ∷ 1 ∷ []
        → line_of_fault (TooHeavy Only (record { number = 12; goods = goods; limit = OfEach 1000000 }))
        ≡ codes "step limit of 1000000 at bid 12: 0,1\n" }
    ensures of_all { (goods : Vec ℕ Global) → goods.items ≡ 0 ∷ 1 ∷ []
        → line_of_fault (TooHeavy Only (record { number = 12; goods = goods; limit = OfAll 5000000 }))
        ≡ codes "total step limit of 5000000 at bid 12: 0,1\n" }
    ensures twenty { (goods : Vec ℕ Global) → goods.items ≡ range_with_len 0 20
        → line_of_fault (TooHeavy First (record { number = 0; goods = goods; limit = OfEach 1 }))
        ≡ codes "first: step limit of 1 at bid 0: 0,1,2,3,4,5,6,7,8,9,10,11,12,13,14,15,16,17,18,19\n" }
    ensures more { (goods : Vec ℕ Global) → goods.items ≡ range_with_len 0 21
        → line_of_fault (TooHeavy Second (record { number = 0; goods = goods; limit = OfEach 1 }))
        ≡ codes "second: step limit of 1 at bid 0: 0,1,2,3,4,5,6,7,8,9,10,11,12,13,14,15,16,17,18,19"
        ++ codes ",.. (21 goods)\n" }
    ensures status { (goods : Vec ℕ Global)
        → status_of_fault (TooHeavy Only (record { number = 0; goods = goods; limit = OfEach 1 })) ≡ 3 }
{}

/// Bundles as they are printed, in a line and in a table.
pub fn bundles()
    ensures line { map bundle_text ((0 ∷ 1 ∷ 2 ∷ []) ∷ (4095 ∷ []) ∷ [] ∷ []) ≡ codes "0,1,2" ∷ codes "4095" ∷ [] ∷ [] }
    ensures cell { map list_cell ((12 ∷ 17 ∷ 36 ∷ []) ∷ (4095 ∷ []) ∷ [] ∷ []) ≡ codes "12 17 36" ∷ codes "4095" ∷ [] ∷ [] }
{}
