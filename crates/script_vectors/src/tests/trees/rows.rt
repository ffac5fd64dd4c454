// The rows of the tests: the depth, the number of tokens, whether well formed (`y` or `n`), and the tree in the notation.
// Tokens are counted by CPython's `tokenize` on the text of the tree, but where no text has that tree: an integer below 0
// counts as one, and a suite without statements as its NEWLINE, INDENT and DEDENT.

// Of an expression as the argument of a head, with four tokens round it.
pub const EXPRESSIONS: &str = r#"
1 5 y None
1 5 y True
1 5 y False
1 5 y #0
1 5 y #170141183460469231731687303715884105727
1 5 y "t
1 5 y $a
2 7 y $a (
3 9 y $a ( (
1 6 y tuple/0
2 8 y $a tuple/1,
2 9 y $a $b tuple/2
2 10 y $a $b tuple/2,
1 6 y [/0
2 7 y $a [/1
2 8 y $a [/1,
2 10 y $a $b [/2,
1 6 y {/0
2 9 y $a $b {/2
2 10 y $a $b {/2,
2 14 y $a $b $c $d {/4,
2 11 y $a $b gather:x/0
2 13 y $a $b $c gather:x/1
2 13 y $a $b gather:x+y/0
2 18 y $a $b $c gather:(x+y/1,
2 12 y $a $b gather:x/0,
2 14 y $a $b gather:(x/0,
1 7 y call:f/0
2 9 y $a call:f/1,
2 10 y $a $b call:f/2
2 9 y $a method:strip/0
2 11 y $a $b method:find/1,
2 12 y $a $b $c method:replace/2
2 8 y $a $b @
4 13 y $a ( $b @ $c @
2 8 y $a :/0
2 9 y $a $b :/1
2 9 y $a $b :/2
2 10 y $a $b $c :/3
2 6 y $a neg
3 7 y $a plus neg
2 6 y $a plus
2 7 y $a $b +
3 9 y $a $b + $c -
2 7 y $a $b *
3 9 y $a $b ~ $c *
2 7 y $a $b %
4 10 y $a neg $b * $c +
4 11 y $a $b $c + ( *
2 7 y $a $b =:</1
2 9 y $a $b $c =:l>/2
2 7 y $a $b =:=/1
2 9 y $a $b $c =:!g/2
2 7 y $a $b =:i/1
2 10 y $a $b $c =:ni/2
2 7 y $a None =:s/1
2 12 y $a None $b None =:s=t/3
2 6 y $a !
3 7 y $a ! !
2 7 y $a $b &/1
3 10 y $a $b ! $c &/2
2 7 y $a $b |/1
3 11 y $a $b $c &/1 $d |/2
2 9 y $a $b $c ?
3 13 y $a $b $c $d $e ? ?
5 14 y $a $b |/1 $c $d ? ( !
2 7 y True False =:=/1
2 7 y "t "u +
3 9 y $a $b $c % -
3 9 y $a $b % $c ~
2 19 y $a $b $c $d $e $a None =:l>!gnt/6
2 11 y $a $b call:f/2,
2 13 y $a $b $c method:replace/2,
4 13 y $a $b ( ( tuple/2
4 13 y $a $b ( ( [/2
4 13 y $a $b ( ( {/2
4 13 y $a ( ( $b {/2
4 17 y $a $b $c $d ( ( {/4
4 17 y $a ( ( $b $c gather:x/1
4 17 y $a $b ( ( $c gather:x/1
4 17 y $a $b $c ( ( gather:x/1
4 14 y $a $b ( ( call:f/2
4 14 y $a $b ( ( method:m/1
4 12 y $a $b ( ( @
4 14 y $a $b ( ( $c :/3
4 14 y $a $b $c ( ( :/3
4 11 y $a $b ( ( +
4 13 y $a $b $c ( ( =:<</2
4 13 y $a $b $c ( ( &/2
4 13 y $a $b $c ( ( |/2
4 13 y $a ( ( $b $c ?
4 13 y $a $b ( ( $c ?
4 13 y $a $b $c ( ( ?
1 5 n #-1
1 5 n #-170141183460469231731687303715884105728
1 5 n $if
1 5 n $None
2 7 n $a tuple/1
1 7 n tuple/0,
2 7 n $a $b bare/2
1 7 n [/0,
1 7 n {/0,
1 8 n call:f/0,
2 8 n $a call:not/1
2 9 n $a method:is/0
2 10 n $a method:strip/0,
2 11 n $a $b gather:in/0
2 15 n $a $b gather:x+x+or/0
2 13 n $a $b gather:(x/0
3 9 n $a $b $c + *
3 9 n $a $b + $c *
3 9 n $a $b $c - -
3 8 n $a $b * neg
3 9 n $a neg $b @
3 11 n $a $b + method:strip/0
3 9 n $a $b =:</1 $c +
3 9 n $a $b =:</1 $c =:</1
3 8 n $a ! $b =:=/1
3 9 n $a $b |/1 $c &/1
3 9 n $a $b &/1 $c &/1
3 9 n $a $b $c |/1 |/1
3 8 n $a $b &/1 !
3 10 n $a $b $c ? !
3 13 n $a $b $c ? $d $e ?
3 13 n $a $b $c $d ? $e ?
2 5 n $a &/0
2 5 n $a |/0
2 7 n $a $b =:s/1
2 8 n $a #1 =:t/1
3 9 n $a None ( =:s/1
3 9 n $a $b bare/2 (
2 15 n $a $b gather:(x+is/0
2 7 n None $a =:s/1
3 10 n $a $b bare/2 tuple/1,
3 9 n $a $b bare/2 [/1
3 11 n $a $b bare/2 $c {/2
3 11 n $a $b $c bare/2 {/2
3 10 n $a $b bare/2 call:f/1
3 12 n $a $b $c bare/2 method:m/1
3 10 n $a $b $c bare/2 @
3 9 n $a neg :/0
3 11 n $a $b $c bare/2 :/1
3 11 n $a $b $c bare/2 :/2
3 10 n $a neg method:m/0
3 13 n $a $b bare/2 $c gather:x/0
3 15 n $a $b $c $d ? gather:x/0
3 17 n $a $b $c $d $e ? gather:x/1
3 8 n $a $b =:</1 neg
3 9 n $a $b $c * *
3 8 n $a ! $b =:</1
3 9 n $a $b $c =:</1 =:</1
3 9 n $a $b $c |/1 &/1
3 9 n $a $b |/1 $c |/1
3 11 n $a $b $c $d bare/2 ?
2 5 n $a =:/0
"#;

// Of a statement in the indented suite of a def, with eight tokens round it.
pub const STATEMENTS: &str = r#"
1 10 y Pass
1 10 y Return/0
2 11 y $a Return/1
3 13 y $a $b bare/2 Return/1
3 12 y $a bare/1, Return/1
2 10 y $a Express
3 14 y $a $b $c ? Express
2 12 y $a Assign:x
3 15 y $a $b bare/2, Assign:x
2 14 y $a Assign:x+y
2 13 y $a Assign:x/0,
2 17 y $a Assign:(x+y/0,
2 15 y $a Assign:(x/0,
2 12 y $a Update:+x
2 12 y $a Update:-x
2 12 y $a Update:*x
2 12 y $a Update:~x
2 12 y $a Update:%x
2 13 y Pass line $a if/0
3 18 y $a Express Pass suite/2 $a if/0
2 18 y Pass line $a Pass line $b elif if/1
3 25 y Pass line $a Pass line $b elif $c Express suite/1 otherwise if/1
2 17 y Pass line $a Pass line otherwise if/0
2 27 y Pass line $a Pass line $b elif Pass line $c elif Pass line otherwise if/2
2 15 y Break line $a for:x
2 17 y Continue line $a for:x+y
2 24 y Break Continue suite/2 $a for:(x+y
3 21 y Break line $b if/0 suite/1 $a for:x
3 26 y Pass line $a Continue line otherwise if/0 suite/1 $a for:x/0,
3 25 y Pass line $b for:y Break suite/2 $a for:x
4 20 y $a $b ( $c ( bare/3 Assign:x
4 17 y Pass line $a ( ( if/0
4 22 y Pass line $a Pass line $b ( ( elif if/1
4 19 y Pass line $a ( ( for:x
4 23 y Pass line $a $b ( Return/1 suite/1 otherwise if/0
1 10 n Break
1 10 n Continue
2 13 n Break line $a if/0
2 14 n suite/0 $a if/0
2 16 n suite/0 $a for:x
3 16 n Pass line $a if/0 line $b if/0
2 12 n $a Assign:for
2 14 n $a Assign:x+True
2 14 n $a Assign:(x
2 12 n $a Update:+not
2 15 n Pass line $a for:in
3 12 n $a $b bare/2 Express
3 14 n $a $b bare/2 Update:+x
3 15 n Pass line $a $b bare/2 if/0
3 17 n Pass line $a $b bare/2 for:x
3 20 n Pass line $a Pass line $b $c bare/2 elif if/1
2 17 n Pass line $a Break line otherwise if/0
2 18 n Pass line $a Break line $b elif if/1
2 18 n Pass line $a suite/0 otherwise if/0
2 19 n Pass line $a suite/0 $b elif if/1
2 10 n bare/0 Return/1
3 11 n $a bare/1 Return/1
4 14 n $a $b bare/2 bare/1, Return/1
2 12 n $a Assign:/0,
2 13 n $a Assign:(/0
2 16 n $a Assign:(x+is/0
3 18 n Pass line $a if/0 line $b for:x
3 21 n Pass line $a Pass line $b if/0 line $c elif if/1
3 20 n Pass line $a Pass line $b if/0 line otherwise if/0
2 17 n Pass line $a for:x+in
"#;

// Of a block.
pub const BLOCKS: &str = r#"
1 7 y Pass line def:f
1 11 y Pass suite/1 def:f+x
2 12 y $a Return/1 line def:f+x+y/0,
2 14 y Pass $a Express suite/2 def:f+x/0,
0 2 y use:p whole
0 4 y use:p whole/1
0 4 y use:p keep:q
0 4 y head:csv/0 whole
1 9 y "f value head:csv/1 .:unique/0 whole
2 22 y "f value "n [/1 value head:csv/2, .:unique/0 $f value .:filter/1, whole/1
1 12 y $x ^:x .:map/1 use:p keep:q
1 23 y $a ^: $a ^:x+y .:map/2, head:csv/0 keep:q/1
1 14 y $f value $g value .:join/2, .:unique/0 use:p whole
1 8 y $f value head:csv/1, keep:q
3 16 y $a value $b ( ( ^:x .:map/2 use:p whole
3 11 y $a ( ( value $b value head:csv/2 whole
1 7 n Pass line def:if
1 10 n Pass line def:f+x+x
1 10 n Pass line def:f+x+in
1 8 n Pass line def:f/0,
1 7 n Break line def:f
0 8 n suite/0 def:f
2 10 n Pass line $a if/0 line def:f
0 2 n use:is whole
0 4 n use:p keep:pass
0 5 n head:csv/0, whole
0 6 n .:or/0 use:p whole
0 7 n .:map/0, use:p whole
1 12 n $a ^:x+x .:map/1 use:p whole
1 10 n $a ^:if .:map/1 use:p whole
2 7 n $a $b bare/2 value head:csv/1 whole
2 10 n $a $b bare/2 ^:x head:csv/1 whole
1 5 n #-1 value head:csv/1 whole
1 7 n #-1 ^: head:csv/1 whole
2 7 n #-1 Express line def:f
0 4 n head:if/0 whole
2 9 n $a $b bare/2 value .:map/1 use:p whole
"#;

// How often a step is taken from a beginning so that the depth is 64 with what is put round it at last.
pub const DEEP: &str = r#"
63 ; $a ; ( ; value head:p/1 whole
63 ; $a ; tuple/1, ; value head:p/1 whole
63 ; $a ; bare/1, ; value head:p/1 whole
63 ; $a ; [/1 ; value head:p/1 whole
63 ; $a ; $b {/2 ; value head:p/1 whole
63 ; $a ; $b gather:x/0 ; value head:p/1 whole
63 ; $a ; call:f/1 ; value head:p/1 whole
63 ; $a ; method:m/0 ; value head:p/1 whole
63 ; $a ; $b @ ; value head:p/1 whole
63 ; $a ; :/0 ; value head:p/1 whole
63 ; $a ; neg ; value head:p/1 whole
63 ; $a ; $b + ; value head:p/1 whole
63 ; $a ; $b =:</1 ; value head:p/1 whole
63 ; $a ; ! ; value head:p/1 whole
63 ; $a ; $b &/1 ; value head:p/1 whole
63 ; $a ; $b |/1 ; value head:p/1 whole
63 ; $a ; $b $c ? ; value head:p/1 whole
62 ; $a ; ( ; Return/1 suite/1 def:f
62 ; $a ; ( ; Assign:x suite/1 def:f
62 ; $a ; ( ; Update:+x suite/1 def:f
62 ; $a ; ( ; Express suite/1 def:f
63 ; Pass ; line $a if/0 ; line def:f
63 ; Pass ; suite/1 $a if/0 ; line def:f
63 ; Pass ; suite/1 $a for:x ; line def:f
63 ; Pass ; line otherwise Pass line $a if/0 ; line def:f
63 ; Pass ; line $b elif Pass line $a if/1 ; line def:f
63 ; $a ; ( ; ^:x head:p/1 whole
63 ; $a ; ( ; value .:map/1 use:p keep:q
"#;
