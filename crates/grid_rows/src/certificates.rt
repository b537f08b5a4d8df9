//! Certificates: what `check` says of texts, and what `cert` writes.

/// Certificates, and texts that look like some.
pub(crate) const CHECKED: &str = "
$ check
< gridcert 1
< grid 2
< O 1 0
< X 0 1
< cell 0 0
< cycle 01
< cocycle 01
< cell -1 -1
< cycle 10
< cocycle 10
< end
> yes

$ check
< gridcert 1
< grid 2
< O 1 0
< X 0 1
< cell 0 0
< cycle 01
< cocycle
< cell -1 -1
< cycle 10
< cocycle 10
< end
= 6
> no 2 pairing

$ check
< gridcert 1
< grid 3
< O 2 1 0
< X 1 0 2
< cell 0 0
< cycle 021
< cocycle 021
< cell -1 -1
< cycle 012 120
< cocycle 120
< cycle 012 201
< cocycle 201
< step 012
< probe 102
< cell -2 -1
< cell -2 -2
< cycle 210
< cocycle 210
< end
> yes

$ check
< gridcert 1
< grid 3
< O 2 1 0
< X 1 0 2
< cell 0 0
< cycle 021
< cocycle 021
< cell -1 -1
< cycle 012 120
< cocycle 120
< cycle 012 201
< cocycle 201
< cell -2 -1
< cell -2 -2
< cycle 210
< cocycle 210
< end
= 6
> no 3 count

$ check
< gridcert 1
< grid 3
< O 2 1 0
< X 1 0 2
< cell 0 0
< cycle 021
< cocycle 021
< cell -1 -1
< cycle 012 120
< cocycle 120
< cycle 012 201
< cocycle 201
< step 012
< probe 210
< cell -2 -1
< cell -2 -2
< cycle 210
< cocycle 210
< end
= 6
> no 6 degree

$ check
< gridcert 1
< grid 3
< O 2 1 0
< X 1 0 2
< cell 0 0
< cycle 021
< cocycle 021
< cell -1 -1
< cycle 012
< cocycle 120
< cycle 012 201
< cocycle 201
< step 012
< probe 102
< cell -2 -1
< cell -2 -2
< cycle 210
< cocycle 210
< end
= 6
> no 4 cycle

$ check
< gridcert 1
< grid 3
< O 2 1 0
< X 1 0 2
< cell 0 0
< cycle 021
< cocycle 021
< cell -1 -1
< cycle 012 120
< cocycle 120 201
< cycle 012 201
< cocycle 201
< step 012
< probe 102
< cell -2 -1
< cell -2 -2
< cycle 210
< cocycle 210
< end
= 6
> no 4 pairing

$ check
< gridcert 1
< grid 3
< O 2 1 0
< X 1 0 2
< cell 0 0
< cycle 021
< cocycle 021
< cell -1 -1
< cycle 012 120
< cocycle 120
< cycle 012 201
< cocycle 201
< step 012
< probe 102
< cell -2 -1
< end
= 6
> no 8 missing

$ check
< gridcert 1
< grid 2
< O 1 0
< X 0 1
< cell 0 0
< cycle 01
< cocycle 01
< cell -1 -1
< cycle 10
< cocycle 10
= 2
> refused BadLine line 11

$ check
< gridcert 1
< grid 2
< O 1 0
< X 0 1
< cell 0 0
< cycle 01 01
< cocycle 01
< cell -1 -1
< cycle 10
< cocycle 10
< end
= 2
> refused BadLine line 6

$ check
= 2
> refused BadLine line 1

$ check
< gridcert 1
< grid 3
< O 2 1 0
< X 1 0 2
< cell 0 0
< cycle 021
< cocycle 021
< cell -1 -1
< cycle 012 120
< cocycle 120
< cycle 012 201
< cocycle 201
< step 012
< probe
< cell -2 -1
< cell -2 -2
< cycle 210
< cocycle 210
< end
= 6
> no 6 probe

$ check
< gridcert 1
< grid 2
< O 1 0
< X 0 1
< cell 0 0
< cycle 01
< cocycle 01
< cell 0 0
< cycle 10
< cocycle 10
< end
= 2
> refused BadLine line 8

$ check
< gridcert 1
< grid 2
< O 1 0
< X 0 1
< cell 0 0
< cycle 01
< cocycle 01
< cell -0 -1
< cycle 10
< cocycle 10
< end
= 2
> refused BadLine line 8

$ check
< gridcert 2
< grid 2
< O 1 0
< X 0 1
< cell 0 0
< cycle 01
< cocycle 01
< cell -1 -1
< cycle 10
< cocycle 10
< end
= 2
> refused BadLine line 1

$ check
< gridcert 1
< grid 7
< O 1 0
< X 0 1
< cell 0 0
< cycle 01
< cocycle 01
< cell -1 -1
< cycle 10
< cocycle 10
< end
= 2
> refused BadLine line 2

$ check
< gridcert 1
< grid 2
< O 1 0
< X 0 1
< cell 0 0
< cycle 02
< cocycle 01
< cell -1 -1
< cycle 10
< cocycle 10
< end
= 2
> refused BadLine line 6

$ check
< gridcert 1
< grid 2
< O 1 0
< X 0 1
< cell 0 0
< cycle 01
< cocycle 01
< cell -1 -1
< cycle 10
< cocycle 10
< end
<
= 2
> refused BadLine line 12

$ check
< gridcert 1
< grid 2
< O 1 0
< X 0 1
< cell 0 0
< cycle 01
< cocycle 01
< cell -1 -1
< cycle 10
< cocycle 10
. end
= 2
> refused BadLine line 11

$ check
< gridcert 1
< grid 3
< O 2 1 0
< X 1 0 2
< cell 0 0
< cycle 021
< cocycle 021
< cell -1 -1
< cycle 012 120
< cocycle 120
< cycle 012 201
< cocycle 201
< step 012
< probe 102
< cell -2 -1
< cycle 102
< cocycle 102
< cell -2 -2
< cycle 210
< cocycle 210
< end
= 6
> no 7 count

$ check
< gridcert 1
< grid 3
< O 2 1 0
< X 1 0 2
< cell 0 0
< cycle 021
< cocycle 021
< cell -1 -1
< cycle 012 120
< cocycle 120
< cycle 012 201
< cocycle 201
< cycle 012
< cocycle 012
< cell -2 -1
< cell -2 -2
< cycle 210
< cocycle 210
< end
= 6
> no 6 cycle

$ check
< gridcert 1
< grid 2
< O 1 0
< X 0 1
< cell 0 0
< cycle 01
< cocycle 01
< cell -1 -1
< cycle 10
< cocycle 10
< cell -2 -2
< end
= 6
> no 5 count
";

/// Documents and their certificates.
pub(crate) const CERTIFIED: &str = "
$ cert
< grid 2
< O 1 0
< X 0 1
< end
> gridcert 1
> grid 2
> O 1 0
> X 0 1
> cell 0 0
> cycle 01
> cocycle 01
> cell -1 -1
> cycle 10
> cocycle 10
> end

$ cert
< grid 2
< O 1 0
< X 0 1
< front
< turn left
< show
< end
> gridcert 1
> grid 2
> O 0 1
> X 1 0
> cell 0 0
> cycle 10
> cocycle 10
> cell -1 -1
> cycle 01
> cocycle 01
> end

$ cert
< grid 7
< O 0 1 2 3 4 5 6
< X 3 4 5 6 0 1 2
< end
= 2
> refused TooLarge line 1

$ cert
< # seven columns
<
< grid 7
< O 0 1 2 3 4 5 6
< X 3 4 5 6 0 1 2
< end
= 2
> refused TooLarge line 3

$ cert
< grid 7
< O 0 1 2 3 4 5 6
< X 0 4 5 6 3 1 2
< end
= 2
> refused SameSquare line 3

$ cert
< grid 2
< O 1 0
< X 0 1
< cols 1 over
< end
= 2
> refused NotCommuting line 4

$ cert
< grid 3
< O 2 1 0
< X 1 0 2
< end
> gridcert 1
> grid 3
> O 2 1 0
> X 1 0 2
> cell 0 0
> cycle 021
> cocycle 021
> cell -1 -1
* cycle
* cocycle
* cycle
* cocycle
* step
> probe 102
> cell -2 -1
> cell -2 -2
> cycle 210
> cocycle 210
> end

$ cert | check
< grid 3
< O 2 1 0
< X 1 0 2
< end
> yes

$ make --size 6 --seed 1 | cert | check
> yes
";
