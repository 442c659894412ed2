// The first worked design, its policy, and the controllers, reports and listing that are made of it; another controller; the design of a satellite; and
// what `demo` prints. The worked rows and the tests of scripts read them here, too: `checks/rows/worked_texts.py`.

/// One input at one stage of one state in 0 .. 1: x+ = x + u, the cost x^2 + u^2, -1 <= u <= 1 and at the end x <= 1/4.
pub const DESIGN: &str = "version = 1
states = 1
inputs = 1
stages = 1
[plant]
den = 1
a = [[1]]
b = [[1]]
[cost]
den = 1
row_den = 1
input = [1]
stage = [[1, 0, 1]]
final = []
[limits]
den = 4
stage = [[0, 4, 4], [0, -4, 4]]
final = [[4, 1]]
[box]
grid = 0
lo = [0]
hi = [1]
[targets]
den = 1
violation = 16
gap = 1
";

/// A plan for each corner of its box.
pub const POLICY: &str = "1,0\n8,-7\n";

pub const CONTROLLER: &str = "mpc-controller 1
size 1 1 1 3
bits 10 0 1 26
steps 4
clamp 32768
words 6
lo 0
hi 1
P 512
T 0
W 256 -256 256
G 1024
G -1024
G 1024
E 0
E 0
E 1024
b 1024 1024 256
end
";

/// The controller of two states, one input, two stages and two rows. Its greatest absolute sum is 154960, which needs 19 bits.
pub const CONTROLLER_OF_TWO: &str = "mpc-controller 1
size 2 1 2 2
bits 8 4 2 19
steps 7
clamp 5000
words 8
lo -16 -3
hi 16 5
P -12 7
P 0 300
T 5 -9
W 1 -2
W 3 0
G 256 0
G -256 128
E 64 -64
E 0 1
b 256 -512
end
";

pub const REPORT: &str = "mpc-report 1
margin 8192 65536
cost 1
multiplier 8
step 1
steps 4
bits 10
width 26
words 6
violation 8850854903808 1099511627776
gap 438095052800 1099511627776
undercut 70806839230464 1099511627776
end
";

/// The controller's listing, as the model of `checks/fuzz/program.py list` writes it.
pub const LISTING: &str = "mpc-listing 1
word 26
input 1 10
lo 0
hi 1
words 6
output 5 1 4096
repeat 4 38
count 152
clear
mac 0 512 0
con 0 10
shl 1
mac 1 256 0
mac 2 -256 0
mac 3 256 0
shr 11
neg
store 4
clear
mac 4 1024 0
con -1024 10
shr 10
addm 1
low
cap 32768
store 1
clear
mac 4 -1024 0
con -1024 10
shr 10
addm 2
low
cap 32768
store 2
clear
mac 4 1024 0
mac 0 1024 0
con -256 10
shr 10
addm 3
low
cap 32768
store 3
load 5
addm 4
store 5
end
";

/// The lean controller of the design with the references `1,0` and `2,-1`.
pub const LEAN_CONTROLLER: &str = "mpc-controller 1
size 1 1 1 3
bits 6 0 1 16
steps 1
clamp 256
words 6
lo 0
hi 1
P 32
T 0
W 16 -16 16
G 64
G -64
G 64
E 0
E 0
E 64
b 64 64 16
end
";

/// The controller of the accelerated machine of the design at closer targets, at 3 steps, of which a row has an exponent of its own: its plan at 1 is followed by hand, by the weights 2, 3 and 4
/// -256, -272 and -288, and over 9 * 512.
pub const FAST_CONTROLLER: &str = "mpc-controller 3
size 1 1 1 3
bits 9 0 1 22
steps 3
clamp 2048
words 12
exps 0 1 1
lo 0
hi 1
P 256
T 0
W 128 -128 128
G 512
G -512
G 512
E 0
E 0
E 512
b 512 512 128
end
";

/// The controller of the state 0 alone, as the row of `split` among the worked rows has it.
pub const LOW: &str = "mpc-controller 1
size 1 1 1 3
bits 5 0 1 13
steps 1
clamp 128
words 6
lo 0
hi 0
P 16
T 0
W 8 -8 8
G 32
G -32
G 32
E 0
E 0
E 32
b 32 32 8
end
";

pub const LOW_REPORT: &str = "mpc-report 1
margin 16384 65536
cost 0
multiplier 1
step 1
steps 1
bits 5
width 13
words 6
violation 4922032521216 1099511627776
gap 523986010112 1099511627776
undercut 4922032521216 1099511627776
end
";

/// The states of the box's corners.
pub const STATES: &str = "0\n1\n";

/// What `solve` prints of them.
pub const PLANS: &str = "4096 0\n4096 -2224\n";

/// One axis of a satellite, angle and rate, over five half seconds.
pub const SATELLITE: &str = "version = 1
states = 2
inputs = 1
stages = 5
[plant]
den = 8
a = [[8, 4], [0, 8]]
b = [[1], [4]]
[cost]
den = 1
row_den = 1
input = [1]
stage = [[1, 0, 0, 1], [0, 1, 0, 1]]
final = []
[limits]
den = 1
stage = [[0, 0, 1, 4], [0, 0, -1, 4], [1, 0, 0, 8], [-1, 0, 0, 8], [0, 1, 0, 2], [0, -1, 0, 2]]
final = [[1, 0, 8], [-1, 0, 8], [0, 1, 2], [0, -1, 2]]
[box]
grid = 4
lo = [-64, -16]
hi = [64, 16]
[targets]
den = 1
violation = 16
gap = 1
";

/// What `demo 7` prints, from the model in exact fractions: a report of 208 bytes, and four lines.
pub const DEMO_OF_SEVEN: &str = "mpc-report 1
margin 16384 65536
cost 63
multiplier 252
step 1
steps 8064
bits 31
width 73
words 78
violation 137564006416 1099511627776
gap 31513341657 1099511627776
undercut 34666129616832 1099511627776
end
17317308137472 7263807345963 17331305367316 986525326301 17319796755491 -1659324381987 16285107482136 -2679637787082 15451187731935 -3073655857193 15092040554849 -3220531605651 14097620001560
17317308137472 -1343041153994 17320181266648 -2205020446204 15993467770692 -2823450524125 15362645348508 -3059813594971 15170577159131 -3194939595885 15003894286892 -3256095330405 14072863555167
17317308137472 2730593652673 17320896598117 -1107518991629 16682424872095 -2481609138026 15606315313892 -2950712766347 15249787129102 -3160256007815 15029036745528 -3245930592177 14079936222543
17317308137472 -5617287430405 12989677374963 -3776670931370 14392546309353 -3298419508458 14904863184619 -3196546284766 15041542201861 -3234362528561 14977476427602 -3267467681498 14065055949064
";
