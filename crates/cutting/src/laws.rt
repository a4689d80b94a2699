// Laws of the tokens of a script.
ghost use Rattle.cutting.specs.Laws.{ExactlyOne, Means, Lays, Rises, Sounds, Faults, Determined, ByLine};

// Each script has exactly one list of tokens and one ending. The tokens lie in the script in rising order, only blanks
// and comments stand between them, each has the shape of its class, each fault is true, and what obeys these laws is
// that list and ending. A token's column is a function of the bytes before it on its line alone.
pub fn laws_stand()
    ensures one { ExactlyOne }
    ensures means { Means }
    ensures laid { Lays }
    ensures rising { Rises }
    ensures sound { Sounds }
    ensures fault { Faults }
    ensures determined { Determined }
    ensures line { ByLine }
{}
