//! Texts that are no documents, and their first faults.

/// Texts, and the lines that refuse them.
pub(crate) const REFUSALS: &str = "
$ run
< grid 2
< O 1 0
< X 0 1
< flip now
< end
= 2
> refused BadCount line 4

$ run
< grid 5
< O 0 1 2 3 4
< X 2 3 4 0 1
< cols 1 over
< end
= 2
> refused NotCommuting line 4

$ run
< grid 5
< O 0 1 2 3 4
< X 2 3 4 0 1
< invert cols 1 over
< end
= 2
> refused NotCommuting line 4

$ run
< grid 5
< O 0 1 2 3 4
< X 2 3 4 0 1
< invert cols 1
< end
= 2
> refused BadCount line 4

$ run
< grid 5
< O 0 1 2 3 4
< X 2 3 4 0 1
< invert col 9 over
< end
= 2
> refused BadChoice line 4

$ run
< grid 5
< O 0 1 2 3 4
< X 2 3 4 0 1
< invert rows 5 over
< end
= 2
> refused BadNumber line 4

$ run
< grid 2
< O 1 0
< X 0 1
= 2
> refused NoEnd line 4

$ run
< grid 2
< O 1 0
< X 0 1
< end
< front
= 2
> refused AfterEnd line 5

$ run
< grid 2
< O 0 1
< X 0 1
< hats
< end
= 2
> refused SameSquare line 3

$ run
< grid 11
= 2
> refused BadNumber line 1

$ run
< grid 2
< O 1 1
< X 0 1
< end
= 2
> refused NotPermutation line 2

$ run
= 2
> refused NoEnd line 1

$ run
< picture 2
< OX
< OX
< end
= 2
> refused NotPermutation line 3

$ run
< picture 2
< O
< X O
< end
= 2
> refused BadCount line 2

$ run
< grid 2
< O 1 0
< X 0 1
< hats
< end
= 2
> refused BadWord line 4

$ run
< grid 2
< O 1 0
< X 0 1
< class
< end
= 2
> refused BadCount line 4

$ run
< grid 2
< O 1 0
< X 0 1
< class *
< end
= 2
> refused BadChoice line 4

$ run
< grid 2
< O 1 0
< X 0 1
< cols 2 over
< end
= 2
> refused BadNumber line 4

$ run
< grid 2
< O 1 0
< X 0 1
< border 011
< end
= 2
> refused BadState line 4

$ run
< grid 2
< O 1 0
< X 0 1
< chain 01 01
< end
= 2
> refused RepeatedState line 4

$ run
< grid 2
< O 1 0
< X 0 1
< cols 1 over
< end
= 2
> refused NotCommuting line 4

$ run
< grid 2
< O 1 0
< X 0 1
< show
< fronts
= 2
> refused BadWord line 5

$ run
< grid 2
< O 1 0
< X 1 0
< end
= 2
> refused SameSquare line 3

$ run
< grid 2
< O 1 0
< X 0 1
< cols 1 over over
< end
= 2
> refused BadCount line 4

$ run
< grid 2
< O 1 0
< X 0 1
< cols 99999999999999999999999 over
< end
= 2
> refused BadNumber line 4

$ run
< grid 2
< O 1 0
< X 0 1
< cols 01 over
< end
= 2
> refused BadNumber line 4

$ run
< grid 2
< O 1 0
< X 0 1
< rows 0 upper
< end
= 2
> refused BadChoice line 4

$ run
< grid 2
< O 1 0
< X 0 1
< turn sideways
< end
= 2
> refused BadChoice line 4

$ run
< grid 2
< O 1 0
< X 0 1
< chain 01 011 01
< end
= 2
> refused BadState line 4

$ run
< grid 2
< O 1 0
< X 0 1
< \0
< end
= 2
> refused BadWord line 4

$ run
< grid 2
< O 1 1
= 2
> refused NotPermutation line 2

$ run
< # a
<
< \tgrid 2\r
< O 1 1
= 2
> refused NotPermutation line 4

$ run
< grid 2
< O 1 0
< X 0 1
<
< # a
<  \t\r
= 2
> refused NoEnd line 7

$ run
< grid 2
< O 1 0
< X 0 1
< end
<
< #
< show
= 2
> refused AfterEnd line 7

$ run
< grid 2
< O 1 0
< X 0 1
< show # a
= 2
> refused BadCount line 4

$ run
< picture 3
< O?
= 2
> refused BadCount line 2

$ run
< picture 3
< O?O
= 2
> refused BadChoice line 2

$ run
< picture 4
< OOX.
= 2
> refused NotPermutation line 2

$ run
< picture 3
< XOX
= 2
> refused NotPermutation line 2

$ run
< picture 3
< ..X
= 2
> refused NotPermutation line 2

$ run
< picture 3
< OX.
< # a
<
< XO.
= 2
> refused NoEnd line 6

$ run
< picture 3
< OX.
< # a
<
< .XO
= 2
> refused NotPermutation line 5

$ run
< picture 2
< OX
< XO
< OX
= 2
> refused BadWord line 4

$ run
< picture 11
= 2
> refused BadNumber line 1

$ run
< picture
= 2
> refused BadCount line 1

$ run
< picture2 2
= 2
> refused BadWord line 1

$ run
< grid2
= 2
> refused BadCount line 1

$ run
< grid2 11
= 2
> refused BadNumber line 1

$ run
< grid 2
< OX
= 2
> refused BadWord line 2

$ run
< grid 2
< O 1 0
< X 0 1
< show\r\r
= 2
> refused BadWord line 4

$ run
< grid 2
< O 1 0
< X 0 1
< class\r+
= 2
> refused BadWord line 4
";
