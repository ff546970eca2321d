//! Texts of graphs.

/// No line.
pub const EMPTY: &str = "realm 1\nend\n";

/// A user event without a trigger, and a line that waits for it.
pub const NO_TRIGGER: &str = "realm 1\n\
    space s 0..1\n\
    inst a s x,y\n\
    u = user\n\
    f = fill a.x s 5 on u\n\
    g = fill a.y s 6\n\
    end\n";

/// Broken and unbroken paths from a fault.
pub const FAULTY_PATHS: &str = "realm 1\n\
    space s 0..1\n\
    inst a s x,y\n\
    f = fill a.x s 7\n\
    k = task expect a.x s 0 5 on f\n\
    c = copy a.x a.y s on k\n\
    m = merge k c\n\
    n = mergei k c\n\
    g = fill a.y s 9 on n\n\
    end\n";

/// A cancelled user event, and a barrier whose first phase it cancels.
pub const CANCELLED_BARRIER: &str = "realm 1\n\
    barrier b 1 sum 10\n\
    u = user\n\
    p0 = phase b\n\
    p1 = phase b\n\
    a0 = arrive p0 5 on u\n\
    a1 = arrive p1 6\n\
    c = cancel u\n\
    end\n";

/// A phase of three, at which one arrival of weight 2 and one of weight 1 arrive.
pub const WEIGHTED_ARRIVALS: &str = "realm 2\n\
    barrier b 3 sum 0\n\
    p = phase b\n\
    v = arrive p 5 times 2\n\
    w = arrive p 1\n\
    end\n";

/// The same phase with the arrival of weight 2 alone: it waits.
pub const MISSING_WEIGHT: &str = "realm 2\n\
    barrier b 3 sum 0\n\
    p = phase b\n\
    v = arrive p 5 times 2\n\
    end\n";

/// Each kernel once, and two reductions.
pub const KERNELS: &str = "realm 1\n\
    space s 0..3\n\
    space t 0..1\n\
    space o 0..0\n\
    inst a s x,y,z\n\
    inst b o d\n\
    e1 = task iota a.x s 1\n\
    e2 = task scan a.x a.y s on e1\n\
    e3 = task stencil a.x a.z s s on e2\n\
    e4 = task axpy a.y a.z s 10 on e3\n\
    e5 = task hist a.z a.y s t on e4\n\
    e6 = task dot a.x a.y b.d s o on e5\n\
    e7 = task gather a.x a.y a.z s t on e6\n\
    e8 = reduce max a.x a.z s on e7\n\
    e9 = reduce min a.x a.y s on e8\n\
    end\n";

/// A waiter above its trigger: only one order is lawful.
pub const WAITER_ABOVE_TRIGGER: &str = "realm 1\n\
    space s 0..1\n\
    inst a s x,y\n\
    u = user\n\
    f = fill a.x s 5 on u\n\
    g = fill a.y s 6\n\
    t = trigger u on g\n\
    end\n";

/// Sums under one reservation.
pub const LOCKED_SUMS: &str = "realm 1\n\
    space s 0..1\n\
    inst a s x,y,z\n\
    lock l\n\
    f = fill a.x s 3\n\
    g = fill a.y s 4\n\
    q = acquire l on f\n\
    d = reduce sum a.x a.z s on q\n\
    m = mergei d\n\
    r = release q on m\n\
    k = acquire l on g\n\
    e = reduce sum a.y a.z s on k\n\
    n = mergei e\n\
    t = release k on n\n\
    end\n";

/// The same sums, of which one shares the reservation: the other excludes it.
pub const ONE_SHARED_SUM: &str = "realm 2\n\
    space s 0..1\n\
    inst a s x,y,z\n\
    lock l\n\
    f = fill a.x s 3\n\
    g = fill a.y s 4\n\
    q = acquire l shared on f\n\
    d = reduce sum a.x a.z s on q\n\
    m = mergei d\n\
    r = release q on m\n\
    k = acquire l on g\n\
    e = reduce sum a.y a.z s on k\n\
    n = mergei e\n\
    t = release k on n\n\
    end\n";

/// Reductions by the greatest value under one reservation.
pub const LOCKED_MAXIMA: &str = "realm 2\n\
    space s 0..1\n\
    inst a s x,y,z\n\
    lock l\n\
    f = fill a.x s 3\n\
    g = fill a.y s 4\n\
    q = acquire l on f\n\
    d = reduce max a.x a.z s on q\n\
    m = mergei d\n\
    r = release q on m\n\
    k = acquire l on g\n\
    e = reduce max a.y a.z s on k\n\
    n = mergei e\n\
    t = release k on n\n\
    end\n";

/// Two sections of one reservation: each release may let either acquire go on.
pub const TWO_SECTIONS: &str = "realm 1\n\
    lock l\n\
    q = acquire l\n\
    m = mergei q\n\
    r = release q on m\n\
    k = acquire l\n\
    n = mergei k\n\
    t = release k on n\n\
    end\n";

/// Two sections that share one reservation.
pub const TWO_SHARED_SECTIONS: &str = "realm 2\n\
    lock l\n\
    q = acquire l shared\n\
    m = mergei q\n\
    r = release q on m\n\
    k = acquire l shared\n\
    n = mergei k\n\
    t = release k on n\n\
    end\n";

/// Two copies of one column under shared acquires, beside a fill of it under an exclusive one, which waits for both.
pub const READERS_AND_WRITER: &str = "realm 2\n\
    space s 0..1\n\
    inst a s x,y,z\n\
    lock l\n\
    f = fill a.x s 5\n\
    q = acquire l shared on f\n\
    c = copy a.x a.y s on q\n\
    m = mergei c\n\
    r = release q on m\n\
    k = acquire l shared on f\n\
    d = copy a.x a.z s on k\n\
    n = mergei d\n\
    t = release k on n\n\
    o = merge r t\n\
    w = acquire l on o\n\
    g = fill a.x s 6 on w\n\
    p = mergei g\n\
    v = release w on p\n\
    end\n";

/// Two copies that read the same column.
pub const TWO_READERS: &str = "realm 1\n\
    space s 0..1\n\
    inst a s x,y,z\n\
    f = copy a.x a.y s\n\
    g = copy a.x a.z s\n\
    end\n";

/// A copy from one part of a column, beside a sum into another part of it.
pub const READER_AND_SUM: &str = "realm 1\n\
    space w 0..3\n\
    space s 0..1\n\
    space t 2..3\n\
    inst a w x,y,z\n\
    f = copy a.x a.y s\n\
    g = reduce sum a.z a.x t\n\
    end\n";

/// Two sections with a sum each, of which the first is entered without its reservation: its acquire is cancelled, and what
/// follows it goes on all the same. A line behind both only reads their column.
pub const SECTION_WITHOUT_RESERVATION: &str = "realm 1\n\
    space s 0..1\n\
    inst a s x,y,z\n\
    lock l\n\
    b = fill a.x s 1\n\
    f = fill a.y s 2\n\
    u = user\n\
    w = merge u b\n\
    q = acquire l on w\n\
    m = mergei q\n\
    d = reduce sum a.x a.z s on m\n\
    n = mergei d\n\
    r = release q on n\n\
    k = acquire l on f\n\
    e = reduce sum a.y a.z s on k\n\
    o = mergei e\n\
    t = release k on o\n\
    v = mergei d e\n\
    g = copy a.z a.x s on v\n\
    c = cancel u\n\
    end\n";

/// Nine fills that wait for one user event, whose trigger stands below them.
pub const NINE_WAITERS: &str = "realm 1\n\
    space s1 1..1\n\
    space s2 2..2\n\
    space s3 3..3\n\
    space s4 4..4\n\
    space s5 5..5\n\
    space s6 6..6\n\
    space s7 7..7\n\
    space s8 8..8\n\
    space s9 9..9\n\
    space w 1..9\n\
    inst a w x\n\
    u = user\n\
    f1 = fill a.x s1 1 on u\n\
    f2 = fill a.x s2 2 on u\n\
    f3 = fill a.x s3 3 on u\n\
    f4 = fill a.x s4 4 on u\n\
    f5 = fill a.x s5 5 on u\n\
    f6 = fill a.x s6 6 on u\n\
    f7 = fill a.x s7 7 on u\n\
    f8 = fill a.x s8 8 on u\n\
    f9 = fill a.x s9 9 on u\n\
    t = trigger u\n\
    end\n";
