//! Statements, and the rows that they come to.

/// A statement, and its rows, or `!` and what refuses it.
pub type Row = (&'static str, &'static str);

pub static UNWOUND: [Row; 9] = [
    ("UNWIND [1,2,3] AS x RETURN x", "[1] [2] [3]"),
    ("UNWIND null AS x RETURN x", ""),
    ("UNWIND [] AS x RETURN x", ""),
    ("UNWIND 1 AS x RETURN x", "!type"),
    ("UNWIND [null] AS x RETURN x", "[null]"),
    (
        "UNWIND [[1,2],null,[],[3]] AS l UNWIND l AS x RETURN l, x",
        "[[1,2],1] [[1,2],2] [[3],3]",
    ),
    (
        "UNWIND [1,2] AS x UNWIND ['a','b'] AS y RETURN x, y",
        "[1,\"a\"] [1,\"b\"] [2,\"a\"] [2,\"b\"]",
    ),
    (
        "UNWIND [1,0] AS x UNWIND [1/x] AS y RETURN y",
        "!zero divisor",
    ),
    ("UNWIND [] AS x UNWIND 1/0 AS y RETURN y", ""),
];

pub static NAMES: [Row; 11] = [
    ("RETURN 1, 'a' AS t", "[1,\"a\"]"),
    ("WITH 1 AS x, 2 AS y RETURN *", "[1,2]"),
    ("WITH 1 AS x, 2 AS y WITH y AS z, x RETURN *", "[2,1]"),
    ("WITH 1 AS x WITH *, 2 AS y RETURN *", "no statement"),
    ("WITH 1 AS x RETURN x + 1, x", "[2,1]"),
    ("RETURN a, b", "[v0,v1]"),
    ("RETURN a.k, gone.k", "!gone v2"),
    ("UNWIND [1,2] AS x RETURN x SKIP 1", "[2]"),
    ("UNWIND [1,2,3] AS x RETURN x SKIP 1 LIMIT 1", "[2]"),
    ("UNWIND [1,2,3] AS x RETURN x LIMIT 0", ""),
    ("UNWIND [1,2,3] AS x RETURN x SKIP 5 LIMIT 1", ""),
];

pub static DISTINCT: [Row; 7] = [
    ("UNWIND [1,2,1,3,2] AS x RETURN DISTINCT x", "[1] [2] [3]"),
    ("UNWIND [null,1,null] AS x RETURN DISTINCT x", "[null] [1]"),
    (
        "UNWIND [[1,null],[1,null],[null,1]] AS x RETURN DISTINCT x",
        "[[1,null]] [[null,1]]",
    ),
    (
        "UNWIND [1,'1',true,1,'1'] AS x RETURN DISTINCT x",
        "[1] [\"1\"] [true]",
    ),
    (
        "UNWIND [1,2,3,4] AS x RETURN DISTINCT x % 2, x > 2",
        "[1,false] [0,false] [1,true] [0,true]",
    ),
    ("UNWIND [1,1,2] AS x WITH DISTINCT x RETURN x", "[1] [2]"),
    (
        "UNWIND [2,1,2] AS x WITH x, 1 AS y WITH DISTINCT * RETURN *",
        "[2,1] [1,1]",
    ),
];

pub static SORTED: [Row; 14] = [
    ("UNWIND [3,1,2] AS x RETURN x ORDER BY x", "[1] [2] [3]"),
    (
        "UNWIND [3,1,2] AS x RETURN x ORDER BY x DESC",
        "[3] [2] [1]",
    ),
    (
        "UNWIND [1,null,'b','a',true,[2],a] AS x RETURN x ORDER BY x",
        "[v0] [[2]] [\"a\"] [\"b\"] [true] [1] [null]",
    ),
    (
        "UNWIND [[1,'p'],[0,'q'],[1,'r'],[0,'s']] AS p RETURN p[1] ORDER BY p[0]",
        "[\"q\"] [\"s\"] [\"p\"] [\"r\"]",
    ),
    (
        "UNWIND [[1,'p'],[0,'q'],[1,'r'],[0,'s']] AS p RETURN p[1] ORDER BY p[0] DESC",
        "[\"p\"] [\"r\"] [\"q\"] [\"s\"]",
    ),
    (
        "UNWIND [[1,2],[0,1],[1,1]] AS p RETURN p ORDER BY p[0], p[1] DESC",
        "[[0,1]] [[1,2]] [[1,1]]",
    ),
    (
        "UNWIND [3,1,2] AS x RETURN x AS y ORDER BY y LIMIT 2",
        "[1] [2]",
    ),
    (
        "UNWIND [3,1,2] AS x RETURN -x AS x ORDER BY x",
        "[-3] [-2] [-1]",
    ),
    (
        "UNWIND [3,1,2] AS x RETURN -x AS x, x AS y ORDER BY -x",
        "[-3,3] [-2,2] [-1,1]",
    ),
    (
        "UNWIND [3,1,2] AS x WITH x AS y, -x AS z ORDER BY x SKIP 1 RETURN y",
        "[2] [3]",
    ),
    (
        "WITH 5 AS `0`, 7 AS c UNWIND [2,1] AS x RETURN x, x + c ORDER BY `0`, x + c",
        "[1,8] [2,9]",
    ),
    (
        "UNWIND [2,1,2] AS x RETURN DISTINCT x AS y ORDER BY y",
        "[1] [2]",
    ),
    (
        "UNWIND [1,0] AS x RETURN x ORDER BY 1/x LIMIT 1",
        "!zero divisor",
    ),
    (
        "UNWIND [0,1,2,3] AS x RETURN x % 2 AS r, count(*) AS n ORDER BY count(*), r DESC",
        "[1,2] [0,2]",
    ),
];

pub static FILTERS: [Row; 6] = [
    (
        "UNWIND [1,null,2,3] AS x WITH x WHERE x > 1 RETURN x",
        "[2] [3]",
    ),
    (
        "UNWIND [true,null,false] AS x WITH x WHERE x RETURN x",
        "[true]",
    ),
    ("UNWIND [1] AS x WITH x WHERE x RETURN x", "!type"),
    (
        "UNWIND [1,2,3] AS x WITH x ORDER BY x DESC LIMIT 2 WHERE x < 3 RETURN x",
        "[2]",
    ),
    (
        "UNWIND [0,1] AS x WITH x LIMIT 1 WHERE x = 0 OR 1/x = 1 RETURN x",
        "[0]",
    ),
    (
        "UNWIND [1,1,2] AS x WITH x, count(*) AS n WHERE n > 1 RETURN *",
        "[1,2]",
    ),
];

pub static WHOLE: [Row; 9] = [
    ("RETURN count(*)", "[1]"),
    (
        "UNWIND [] AS x RETURN count(*), count(x), sum(x), min(x), max(x), collect(x)",
        "[0,0,0,null,null,[]]",
    ),
    ("UNWIND [1,null,2] AS x RETURN count(*), count(x)", "[3,2]"),
    (
        "UNWIND [1,1,null,2,null] AS x RETURN count(DISTINCT x), collect(DISTINCT x)",
        "[2,[1,2]]",
    ),
    ("UNWIND [1,2] AS x RETURN count(x) + sum(x) * 10", "[32]"),
    ("UNWIND [] AS x RETURN 1 + count(*)", "[1]"),
    (
        "UNWIND [1,2] AS x RETURN CASE WHEN count(x) > 1 THEN collect(x) ELSE sum(x) END",
        "[[1,2]]",
    ),
    (
        "UNWIND [1,2] AS x RETURN [count(*), sum(x)][1], count(*) IN [1,2]",
        "[3,true]",
    ),
    (
        "UNWIND [1,2,3] AS x WITH collect(x) AS l, count(*) AS n RETURN l, n",
        "[[1,2,3],3]",
    ),
];

pub static GROUPS: [Row; 8] = [
    (
        "UNWIND [1,2,1,3,2] AS x RETURN x, count(*)",
        "[1,2] [2,2] [3,1]",
    ),
    (
        "UNWIND [null,1,null] AS x RETURN x, count(*)",
        "[null,2] [1,1]",
    ),
    (
        "UNWIND [1,2,1,3,2] AS x RETURN count(*), x",
        "[2,1] [2,2] [1,3]",
    ),
    ("UNWIND [] AS x RETURN x, count(*)", ""),
    ("UNWIND [] AS x RETURN 1/0, count(*)", ""),
    (
        "UNWIND [[1,'a'],[2,'b'],[1,'c']] AS p RETURN p[0], collect(p[1])",
        "[1,[\"a\",\"c\"]] [2,[\"b\"]]",
    ),
    (
        "UNWIND [3,1,2,4] AS x RETURN x % 2 AS r, x > 2 AS b, sum(x) ORDER BY r, b",
        "[0,false,2] [0,true,4] [1,false,1] [1,true,3]",
    ),
    (
        "UNWIND [1,1,2] AS x WITH x, count(*) AS n RETURN sum(n), collect(x)",
        "[3,[1,2]]",
    ),
];

pub static SUMS: [Row; 9] = [
    ("UNWIND [1,2,null] AS x RETURN sum(x)", "[3]"),
    ("UNWIND [2,2,3] AS x RETURN sum(DISTINCT x)", "[5]"),
    (
        "UNWIND [9223372036854775807,1] AS x RETURN sum(x)",
        "!overflow",
    ),
    (
        "UNWIND [9223372036854775807,1,-1] AS x RETURN sum(x)",
        "[9223372036854775807]",
    ),
    (
        "UNWIND [-9223372036854775808,-1] AS x RETURN sum(x)",
        "!overflow",
    ),
    (
        "UNWIND [-9223372036854775808,-1,5] AS x RETURN sum(x)",
        "[-9223372036854775804]",
    ),
    ("UNWIND [1,'a'] AS x RETURN sum(x)", "!type"),
    (
        "UNWIND [9223372036854775807,1,'a'] AS x RETURN sum(x)",
        "!type",
    ),
    ("UNWIND [[1]] AS x RETURN sum(x)", "!type"),
];

pub static VALUES: [Row; 8] = [
    ("UNWIND [2,3,1] AS x RETURN min(x), max(x)", "[1,3]"),
    (
        "UNWIND [1,'a',null,true] AS x RETURN min(x), max(x)",
        "[\"a\",1]",
    ),
    (
        "UNWIND [null,null] AS x RETURN min(x), max(x)",
        "[null,null]",
    ),
    (
        "UNWIND ['b','ab','a'] AS x RETURN min(x), max(x)",
        "[\"a\",\"b\"]",
    ),
    (
        "UNWIND [[1,2],[1],[2]] AS x RETURN min(x), max(x)",
        "[[1],[2]]",
    ),
    ("UNWIND [a,b] AS x RETURN min(x), max(x)", "[v0,v1]"),
    ("UNWIND [2,null,1] AS x RETURN collect(x)", "[[2,1]]"),
    ("UNWIND [[null],null] AS x RETURN collect(x)", "[[[null]]]"),
];

pub static FAULTS: [Row; 12] = [
    ("UNWIND [1,0] AS x RETURN 1/x, 1 + 'a'", "!type"),
    ("UNWIND [0,1] AS x RETURN 1/x, 1 + 'a'", "!zero divisor"),
    (
        "UNWIND [1,0] AS x RETURN CASE WHEN x = 1 THEN 1 + 'a' ELSE 1/x END",
        "!type",
    ),
    ("UNWIND [1,0] AS x RETURN sum('a'), 1/x", "!zero divisor"),
    (
        "UNWIND [1,0] AS x RETURN sum('a'), count(1/x)",
        "!zero divisor",
    ),
    (
        "UNWIND [0] AS x RETURN sum('a'), CASE WHEN true THEN 1 ELSE count(1/x) END",
        "!zero divisor",
    ),
    (
        "UNWIND [1] AS x RETURN CASE WHEN true THEN 1 ELSE sum('a') END, 1/0 + count(*)",
        "!type",
    ),
    (
        "UNWIND [1] AS x RETURN 1/0 + count(*), sum('a')",
        "!zero divisor",
    ),
    ("UNWIND [1] AS x RETURN 1/0 + sum('a')", "!type"),
    (
        "UNWIND [1,2] AS x RETURN x, sum(CASE x WHEN 1 THEN 9223372036854775807 ELSE 'a' END) + 1",
        "!overflow",
    ),
    ("UNWIND [1] AS x RETURN x ORDER BY 1 + 'a' SKIP 5", "!type"),
    (
        "UNWIND [1,0] AS x WITH x ORDER BY 1/x WHERE 1 + 'a' RETURN x",
        "!zero divisor",
    ),
];

pub static LONG: [Row; 2] = [
    ("UNWIND range(1,1000001) AS x RETURN 1/0", "!row limit"),
    (
        "UNWIND [1,range(1,1000001)] AS l UNWIND l AS x RETURN 1",
        "!type",
    ),
];
