//! The words of a call, and what `make` writes.

/// Words that `make` knows, and words that ask for nothing.
pub(crate) const WORDS: &str = "
$ make --seed 1 --size 5
< grid 2
< O 1 0
< X 0 1
< end
> grid 5
> O 4 2 0 3 1
> X 0 4 3 1 2
> front
> hat
> class +
> class -
> end
> # tb -3 rot 0 rank 16 plus null minus null

$ make --seed=1 --size=5
< grid 2
< O 1 0
< X 0 1
< end
> grid 5
> O 4 2 0 3 1
> X 0 4 3 1 2
> front
> hat
> class +
> class -
> end
> # tb -3 rot 0 rank 16 plus null minus null

$ make --size=5 --seed 1
< grid 2
< O 1 0
< X 0 1
< end
> grid 5
> O 4 2 0 3 1
> X 0 4 3 1 2
> front
> hat
> class +
> class -
> end
> # tb -3 rot 0 rank 16 plus null minus null

$ make --size 5 --seed=1
< grid 2
< O 1 0
< X 0 1
< end
> grid 5
> O 4 2 0 3 1
> X 0 4 3 1 2
> front
> hat
> class +
> class -
> end
> # tb -3 rot 0 rank 16 plus null minus null

$
< grid 2
< O 1 0
< X 0 1
< front
< end
= 1

$ run now
< grid 2
< O 1 0
< X 0 1
< front
< end
= 1

$ cert now
< grid 2
< O 1 0
< X 0 1
< front
< end
= 1

$ check now
< grid 2
< O 1 0
< X 0 1
< front
< end
= 1

$ runs
< grid 2
< O 1 0
< X 0 1
< front
< end
= 1

$ help
< grid 2
< O 1 0
< X 0 1
< front
< end
= 1

$ --help
< grid 2
< O 1 0
< X 0 1
< front
< end
= 1

$ make
< grid 2
< O 1 0
< X 0 1
< front
< end
= 1

$ make --size 5
< grid 2
< O 1 0
< X 0 1
< front
< end
= 1

$ make --size=5
< grid 2
< O 1 0
< X 0 1
< front
< end
= 1

$ make --seed 1
< grid 2
< O 1 0
< X 0 1
< front
< end
= 1

$ make --size 05 --seed 1
< grid 2
< O 1 0
< X 0 1
< front
< end
= 1

$ make --size=05 --seed 1
< grid 2
< O 1 0
< X 0 1
< front
< end
= 1

$ make --size 1 --seed 1
< grid 2
< O 1 0
< X 0 1
< front
< end
= 1

$ make --size 11 --seed 1
< grid 2
< O 1 0
< X 0 1
< front
< end
= 1

$ make --size 5 --seed 2147483648
< grid 2
< O 1 0
< X 0 1
< front
< end
= 1

$ make --size 5 --seed -1
< grid 2
< O 1 0
< X 0 1
< front
< end
= 1

$ make --size 5 --seed=-1
< grid 2
< O 1 0
< X 0 1
< front
< end
= 1

$ make --size +5 --seed 1
< grid 2
< O 1 0
< X 0 1
< front
< end
= 1

$ make --size 5 --seed 1 --
< grid 2
< O 1 0
< X 0 1
< front
< end
= 1

$ make -- --size 5 --seed 1
< grid 2
< O 1 0
< X 0 1
< front
< end
= 1

$ make --size 5 -- --seed=1
< grid 2
< O 1 0
< X 0 1
< front
< end
= 1

$ make --size=5 --
< grid 2
< O 1 0
< X 0 1
< front
< end
= 1

$ make --size -- --seed 1
< grid 2
< O 1 0
< X 0 1
< front
< end
= 1

$ make --size 5 --seed 1 now
< grid 2
< O 1 0
< X 0 1
< front
< end
= 1

$ make now --size=5 --seed=1
< grid 2
< O 1 0
< X 0 1
< front
< end
= 1

$ make --size=5 --seed=1 now
< grid 2
< O 1 0
< X 0 1
< front
< end
= 1

$ make --size 5 now
< grid 2
< O 1 0
< X 0 1
< front
< end
= 1

$ make --size 5 --size 5
< grid 2
< O 1 0
< X 0 1
< front
< end
= 1

$ make --size=5 --size=5
< grid 2
< O 1 0
< X 0 1
< front
< end
= 1

$ make --seed=1 --seed=1
< grid 2
< O 1 0
< X 0 1
< front
< end
= 1

$ make --size=5 --seed=1 --seed=1
< grid 2
< O 1 0
< X 0 1
< front
< end
= 1

$ make --help --size 5
< grid 2
< O 1 0
< X 0 1
< front
< end
= 1

$ make --size=5 --help
< grid 2
< O 1 0
< X 0 1
< front
< end
= 1

$ make --help
< grid 2
< O 1 0
< X 0 1
< front
< end
= 1

$ make -h
< grid 2
< O 1 0
< X 0 1
< front
< end
= 1

$ make --version --seed=1
< grid 2
< O 1 0
< X 0 1
< front
< end
= 1

$ make --size --seed
< grid 2
< O 1 0
< X 0 1
< front
< end
= 1

$ make --size= --seed=1
< grid 2
< O 1 0
< X 0 1
< front
< end
= 1

$ make --size=5 --seed=
< grid 2
< O 1 0
< X 0 1
< front
< end
= 1

$ make --size=5=5 --seed=1
< grid 2
< O 1 0
< X 0 1
< front
< end
= 1

$ make --siz 5 --seed 1
< grid 2
< O 1 0
< X 0 1
< front
< end
= 1

$ make -size 5 -seed 1
< grid 2
< O 1 0
< X 0 1
< front
< end
= 1

$ make size 5 seed 1
< grid 2
< O 1 0
< X 0 1
< front
< end
= 1

$ make --Size=5 --seed=1
< grid 2
< O 1 0
< X 0 1
< front
< end
= 1

$ make --size=5 --seed
< grid 2
< O 1 0
< X 0 1
< front
< end
= 1

$ make 5 1
< grid 2
< O 1 0
< X 0 1
< front
< end
= 1

$ run make --size=5 --seed=1
< grid 2
< O 1 0
< X 0 1
< front
< end
= 1
";
