//! Texts, chains and numbers of commands at their limits.

/// Texts of 65,536 bytes, lines past 65,535, 256 commands, and chains of a hundred states and of a thousand.
pub(crate) const LIMITS: &str = "
$ run
< grid 2
< O 1 0
< X 0 1
r 32756 #
<
< end

$ run
< grid 2
< O 1 0
< X 0 1
r 32756 #
r 2
< end
= 2
> refused TooLong line 0

$ run
r 65536
= 2
> refused NoEnd line 65537

$ run
r 65535
. x
= 2
> refused BadWord line 65536

$ cert
r 65537
= 2
> refused TooLong line 0

$ run
< grid 2
< O 1 0
< X 0 1
r 256 show
< end
R 256 chain

$ run
< grid 2
< O 1 0
< X 0 1
r 257 show
= 2
> refused TooMany line 260

$ run
< grid 5
< O 0 1 2 3 4
< X 2 3 4 0 1
s chain 5 120
< show
< end
S chain 5 120

$ run
< grid 7
< O 0 1 2 3 4 5 6
< X 3 4 5 6 0 1 2
s chain 7 1440
< show
< end
S chain 7 1440
";
