//! Random programs, written by `bench/reference/walks.py`.

/// A random program with its arguments, and the cost of its run up to its end or trap.
pub struct Generated<'a> {
    pub source: &'a [u8],
    pub args: &'a [i64],
    pub cost: u64,
}

/// Programs that finish and programs that trap, each with several spawns.
pub const GENERATED: [Generated<'static>; 14] = [
    Generated {
        source: b"
reducer max s0;
int f0(int p1) {
  return p1;
}
int f1(int p2, int p3) {
  int x4 = ((-(p3) - p2) == (10 - (100 < p3)));
  if (p2 > 0) {
    p3 = cilk_spawn f1(p2 - 1, (!(10) - !(x4)));
  }
  return (x4 < 6);
}
int f2(int p5) {
  int a6[6];
  a6[0] = p5;
  return len(a6);
}
void f3(int p7) {
  f1(1, (p7 + p7));
  int a8[5];
  a8[1] = 100;
  a8[0] = p7;
}
int main(int p9) {
  int x10 = p9;
  cilk_scope {
    cilk_spawn f3(2);
    int x11 = p9;
    x11 = p9;
    if (10) {
      p9 = cilk_spawn f1(2, (p9 + 9223372036854775807));
      region green {
        cilk_spawn f2(2);
        int x12 = x11;
        x11 = (5 + x12);
      }
    }
  }
  int x13 = x10;
  s0 max= !((5 * x13));
  region green {
    x13 = p9;
  }
  int a14[4];
  return ((p9 + a14[2]) / len(a14));
}
",
        args: &[1],
        cost: 76,
    },
    Generated {
        source: b"
reducer max s0;
reducer max s1;
reducer sum s2;
int f0(int q1[], int q2[], int p3) {
  int a4[3];
  s1 max= -(-(p3));
  return p3;
}
int f1(int q5[]) {
  q5[0] = 6;
  return 1;
}
int main() {
  int w6 = 0;
  while (w6 < 1) {
    w6 = w6 + 1;
  }
  int x7 = (w6 - w6);
  int a8[3];
  int x9 = 10;
  x9 = a8[1];
  s0 max= 100;
  a8[1] = (4 + x7);
  print(x9);
  if (x7) {
    int a10[a8[0]];
    a8[0] = (((x9 >= x9) >= a10[1]) - len(a8));
    x7 = cilk_spawn f0(a10, a8, (w6 + x7));
    int a11[5];
    cilk_sync;
  }
  int w12 = 0;
  while (w12 < 3) {
    cilk_spawn f1(a8);
    cilk_sync;
    w12 = w12 + 1;
  }
  int x13 = len(a8);
  return (a8[2] != 1);
}
",
        args: &[],
        cost: 98,
    },
    Generated {
        source: b"
reducer max s0;
reducer max s1;
void f0(int p1, int p2, int p3, int q4[]) {
  if (p2) {
    region blue {
      int x5 = (p3 <= -(q4[1]));
      p3 = (q4[0] >= p1);
    }
    print(p2);
  } else {
    int x6 = p1;
    cilk_sync;
    if (p1 > 0) {
      cilk_spawn f0(p1 - 1, (q4[1] * -(0)), q4[2], q4);
    }
    int x7 = (p1 < ((p1 - p1) * x6));
  }
  s0 max= (p1 <= 3);
  int a8[3];
}
int f1(int p9, int p10) {
  cilk_for (int i11 = -2; i11 < 8; i11++) {
    s0 max= i11;
    cilk_sync;
  }
  region red {
    p10 = -(p10);
    region blue {
      int x12 = p10;
      region green {
        int a13[3];
      }
    }
  }
  return (p9 > (3 + p10));
}
void f2(int p14) {
  region green {
    cilk_sync;
    int x15 = 6;
    s0 max= (p14 + x15);
  }
  s0 max= (p14 + 100);
}
int main(int p16, int p17) {
  int x18 = 10;
  int x19 = (p17 + p17);
  cilk_spawn f2(3);
  cilk_for (int i20 = 0; i20 < 9; i20++) grain 4 {
  }
  cilk_scope {
    int x21 = (x19 - x19);
    cilk_for (int i22 = 1; i22 < 3; i22++) {
      int x23 = p16;
      s0 max= ((0 * x19) % x23);
    }
  }
  int x24 = 4;
  p16 = p16;
  int x25 = (x19 - p17);
  return x19;
}
",
        args: &[2, 5],
        cost: 281,
    },
    Generated {
        source: b"
void f0(int p1, int q2[], int p3) {
  p1 = p3;
  int x4 = (q2[0] + q2[0]);
  int x5 = 6;
  cilk_sync;
}
int main(int p6) {
  int a7[5];
  int a8[6];
  a7[1] = 4;
  int w9 = 0;
  while (w9 < 1) {
    int x10 = a8[0];
    x10 = -(w9);
    cilk_for (int i11 = 0; i11 < len(a7); i11++) grain 2 over (a7) {
      int w12 = 0;
      while (w12 < 3) {
        cilk_sync;
        w12 = w12 + 1;
      }
      if (4) {
      }
      int a13[((!(i11) <= (p6 < 7)) != (10 > i11))];
      print(len(a13));
    }
    w9 = w9 + 1;
  }
  p6 = a7[0];
  cilk_spawn f0(w9, a7, len(a7));
  a8[1] = w9;
  return len(a8);
}
",
        args: &[1],
        cost: 463,
    },
    Generated {
        source: b"
reducer max s0;
int f0(int p1) {
  int x2 = p1;
  s0 max= x2;
  return x2;
}
int main(int p3) {
  p3 = p3;
  p3 = p3;
  cilk_for (int i4 = 1; i4 < 3; i4++) {
    cilk_spawn f0(4);
    if (4) {
      s0 max= (p3 % 4);
      int x5 = (((i4 * p3) != p3) - (p3 - p3));
    }
  }
  s0 max= p3;
  p3 = p3;
  cilk_for (int i6 = 0; i6 < 7; i6++) grain 3 {
    int x7 = 1;
    x7 = -(-(i6));
  }
  return (p3 - (2 - p3));
}
",
        args: &[8],
        cost: 308,
    },
    Generated {
        source: b"
reducer sum s0;
reducer sum s1;
int f0(int p1, int p2, int q3[]) {
  int x4 = p1;
  int x5 = 10;
  if ((x4 + -((5 - 7)))) {
    int w6 = 0;
    while (w6 < 2) {
      p2 = q3[1];
      int x7 = q3[1];
      w6 = w6 + 1;
    }
    q3[1] = p1;
    cilk_scope {
      x4 = q3[0];
      int x8 = !(3);
      cut q3 at len(q3) as l9, r10 {
        l9[1] = len(l9);
      }
    }
  }
  region green {
    p2 = p2;
    int w11 = 0;
    while (w11 < 3) {
      p2 = q3[1];
      if (p1 > 0) {
        x5 = f0(p1 - 1, x5, q3);
      }
      w11 = w11 + 1;
    }
    q3[2] = -((6 - 10));
  }
  int w12 = 0;
  while (w12 < 2) {
    x5 = (p1 + (len(q3) * q3[1]));
    w12 = w12 + 1;
  }
  return q3[0];
}
void f1(int p13) {
  print(((6 - 10) + (p13 + (p13 > 0))));
  if (p13 > 0) {
    cilk_spawn f1(p13 - 1);
  }
}
int f2() {
  return 1;
}
int main() {
  cilk_spawn f1(2);
  int x14 = -(2);
  int x15 = x14;
  x14 = f2();
  x14 = cilk_spawn f2();
  int x16 = x15;
  region blue {
    cilk_spawn f2();
    print(x16);
  }
  f2();
  int a17[5];
  return ((x16 != x16) > a17[0]);
}
",
        args: &[],
        cost: 87,
    },
    Generated {
        source: b"
reducer sum s0;
reducer sum s1;
reducer sum s2;
void f0(int p1) {
  cilk_scope {
    cilk_scope {
      cilk_sync;
    }
    cilk_for (int i2 = 0; i2 < 0; i2++) grain 2 {
      region green {
        int x3 = (i2 + p1);
        x3 = 3;
      }
    }
  }
  if (p1 > 0) {
    f0(p1 - 1);
  }
}
void f1(int p4, int p5, int p6) {
  if (p6) {
    cilk_spawn f0(1);
    p5 = !(p4);
  } else {
    s0 += ((p5 > 7) * p5);
    cilk_scope {
      print(p5);
      print(p4);
    }
    f0(2);
  }
  int x7 = (p6 - (1 + p4));
  cilk_spawn f0(3);
}
int main() {
  int x8 = 10;
  int w9 = 0;
  while (w9 < 1) {
    int x10 = w9;
    int x11 = (4 - w9);
    f1(3, ((x11 < w9) + -(w9)), (7 < w9));
    x8 = (x11 < -((x8 <= x10)));
    w9 = w9 + 1;
  }
  print((w9 - (x8 == 10)));
  int x12 = 3;
  int a13[4];
  cilk_spawn f1(2, w9, 100);
  if (0) {
    cilk_spawn f1(3, x8, (-(3) - (w9 * 7)));
    a13[2] = (4 - (a13[2] - (w9 * x8)));
  } else {
    cilk_sync;
    x8 = 3;
    f0(1);
  }
  cilk_sync;
  int a14[4];
  cilk_scope {
    a13[0] = len(a14);
  }
  return 10;
}
",
        args: &[],
        cost: 574,
    },
    Generated {
        source: b"
int f0(int p1) {
  p1 = p1;
  p1 = p1;
  return (4 * !(p1));
}
void f1(int p2, int q3[]) {
  cilk_scope {
    f0((5 - 6));
  }
  p2 = 10;
  int x4 = p2;
}
int main(int p5, int p6) {
  cilk_for (int i7 = 0; i7 < 7; i7++) grain 4 {
    region green {
    }
    cilk_spawn f0(p6);
  }
  int a8[3];
  if ((p5 > -(!(p6)))) {
    int a9[4];
  } else {
    cilk_sync;
  }
  cilk_spawn f1(((3 >= p6) + a8[2]), a8);
  p6 = cilk_spawn f0(((p5 == p6) < (0 < p6)));
  int x10 = (p5 - p5);
  p5 = cilk_spawn f0((3 * x10));
  cilk_spawn f0(!(x10));
  cilk_for (int i11 = 0; i11 < 5; i11++) grain 1 {
    cilk_for (int i12 = 1; i12 < 8; i12++) grain 3 {
      print((i12 + i11));
    }
    int a13[6];
  }
  cilk_sync;
  return (((p6 <= 100) == p6) - len(a8));
}
",
        args: &[9, 1],
        cost: 1523,
    },
    Generated {
        source: b"
int f0(int p1, int p2) {
  int x3 = p1;
  return (0 % (p1 <= x3));
}
int f1(int p4, int p5) {
  int x6 = p5;
  x6 = (x6 < 1);
  return ((x6 + p4) * p5);
}
int main(int p7) {
  p7 = f0(2, p7);
  if (-(p7)) {
    p7 = (3 > p7);
  } else {
    print(2);
    cilk_for (int i8 = 0; i8 < 9; i8++) grain 3 {
      int w9 = 0;
      while (w9 < 2) {
        print(p7);
        int a10[6];
        int x11 = len(a10);
        w9 = w9 + 1;
      }
      int x12 = p7;
    }
    region blue {
    }
  }
  cilk_spawn f0(1, p7);
  print((-(!(p7)) * ((p7 < 4) - p7)));
  return p7;
}
",
        args: &[4],
        cost: 611,
    },
    Generated {
        source: b"
reducer sum s0;
reducer sum s1;
void f0(int p1, int p2) {
  int x3 = (-(p1) > 6);
  x3 = (x3 >= x3);
  s1 += p1;
}
int main() {
  cilk_sync;
  s0 += (1 * 7);
  print(3);
  int x4 = (4 + ((5 % 2) + (100 > 0)));
  x4 = x4;
  int w5 = 0;
  while (w5 < 1) {
    int a6[4];
    f0((len(a6) * x4), 10);
    cilk_for (int i7 = 0; i7 < len(a6); i7++) grain 3 over (a6) {
      cilk_spawn f0(-(i7), 7);
      s1 += a6[i7];
      int w8 = 0;
      while (w8 < 2) {
        int a9[5];
        int a10[3];
        w8 = w8 + 1;
      }
    }
    w5 = w5 + 1;
  }
  f0(((0 - 7) > x4), !(6));
  return 7;
}
",
        args: &[],
        cost: 388,
    },
    Generated {
        source: b"
int f0(int p1) {
  int w2 = 0;
  while (w2 < 2) {
    w2 = w2 + 1;
  }
  int x3 = p1;
  return (p1 >= (w2 >= w2));
}
int main(int p4) {
  p4 = (p4 >= (1 < p4));
  p4 = -(-(p4));
  print(3);
  int w5 = 0;
  while (w5 < 1) {
    w5 = w5 + 1;
  }
  p4 = (5 - w5);
  int a6[4];
  region blue {
    region blue {
      cilk_spawn f0(a6[0]);
      p4 = len(a6);
      p4 = cilk_spawn f0(((4 != w5) + (10 != p4)));
      cilk_spawn f0(w5);
    }
    p4 = p4;
    cut a6 at len(a6) as l7, r8 {
      p4 = ((r8[0] <= p4) - l7[2]);
      if (p4) {
        int x9 = r8[0];
        p4 = f0(w5);
        r8[2] = x9;
      } else {
        l7[0] = l7[0];
        int x10 = len(l7);
        p4 = f0((w5 * p4));
        x10 = x10;
      }
    }
  }
  cut a6 at 1 as l11, r12 {
    int x13 = l11[2];
    p4 = f0(p4);
  }
  p4 = 100;
  int x14 = !(!((p4 + w5)));
  return (len(a6) + w5);
}
",
        args: &[8],
        cost: 153,
    },
    Generated {
        source: b"
reducer sum s0;
reducer max s1;
int f0(int p1, int p2, int q3[]) {
  p1 = (p1 != q3[0]);
  int x4 = ((p2 < !(p2)) > (p2 + q3[0]));
  int a5[q3[0]];
  cut a5 at 1 as l6, r7 {
    cut r7 at len(r7) as l8, r9 {
      cilk_sync;
      p1 = (((6 * p2) - q3[0]) + -(x4));
      l8[2] = (((100 * 6) == (6 <= p1)) != ((p1 - p1) * p1));
    }
  }
  if ((len(q3) - a5[0])) {
    int x10 = x4;
  } else {
    s1 max= (p2 < p1);
    int x11 = 6;
  }
  int x12 = len(q3);
  return -(q3[0]);
}
int f1(int p13, int q14[]) {
  int x15 = p13;
  x15 = p13;
  return (-(-(1)) - len(q14));
}
int main() {
  s1 max= 3;
  cilk_for (int i16 = 0; i16 < 7; i16++) grain 2 {
  }
  int w17 = 0;
  while (w17 < 2) {
    cilk_sync;
    cilk_for (int i18 = 0; i18 < 4; i18++) grain 2 {
      cilk_sync;
      if (((i18 >= 6) - 2)) {
        int x19 = (6 - (w17 <= i18));
        int x20 = 100;
        cilk_sync;
      }
      print(i18);
    }
    w17 = w17 + 1;
  }
  int x21 = 4;
  x21 = x21;
  int x22 = (9223372036854775807 + w17);
  print(w17);
  return w17;
}
",
        args: &[],
        cost: 576,
    },
    Generated {
        source: b"
reducer sum s0;
reducer max s1;
void f0(int p1, int p2) {
  if (p1 > 0) {
    cilk_spawn f0(p1 - 1, p1);
  }
  print(p2);
  p2 = p2;
  int x3 = !(p1);
  return;
}
int f1(int p4, int q5[], int q6[], int q7[]) {
  int x8 = 2;
  return p4;
}
int f2(int p9, int p10) {
  cilk_sync;
  int x11 = (p10 * 6);
  cilk_spawn f0(0, -(p9));
  int x12 = 100;
  print(-(2));
  return p10;
}
int main(int p13) {
  p13 = 4;
  int x14 = ((2 > (2 == p13)) * (7 != p13));
  int w15 = 0;
  while (w15 < 1) {
    w15 = w15 + 1;
  }
  cilk_scope {
    cilk_for (int i16 = 0; i16 < 4; i16++) {
      f0(0, p13);
      cilk_spawn f0(1, (x14 + w15));
    }
    int x17 = (5 + 0);
    p13 = !(1);
  }
  s1 max= (w15 * 1);
  s0 += w15;
  f0(2, (w15 - 2));
  return 7;
}
",
        args: &[1],
        cost: 355,
    },
    Generated {
        source: b"
void f0(int p1, int p2, int q3[]) {
  int a4[(p1 >= q3[0])];
  q3[1] = p2;
  if (p1 > 0) {
    f0(p1 - 1, len(q3), a4);
  }
  a4[2] = p1;
  int x5 = p2;
  return;
}
int f1(int p6, int p7) {
  p7 = p6;
  if (p6) {
    cilk_for (int i8 = 0; i8 < 6; i8++) {
      int x9 = -((-(100) < -(p7)));
    }
    print((!((7 == p7)) - (p7 * p6)));
    if ((p6 + p7)) {
      cilk_scope {
      }
    } else {
      int x10 = -(10);
    }
  }
  int x11 = p6;
  if ((x11 * p7)) {
    cilk_for (int i12 = 0; i12 < 2; i12++) grain 4 {
      int a13[5];
      cilk_spawn f0(2, i12, a13);
      region red {
        int a14[5];
      }
      cilk_sync;
    }
    p7 = (((2 > 1) + (p7 - x11)) / (x11 - (p6 * 10)));
  }
  return !((p6 * 7));
}
int main(int p15) {
  region red {
    int w16 = 0;
    while (w16 < 3) {
      int a17[5];
      w16 = w16 + 1;
    }
    p15 = -(p15);
  }
  p15 = f1(!(p15), -(6));
  int x18 = p15;
  cilk_for (int i19 = -2; i19 < 4; i19++) grain 3 {
    cilk_for (int i20 = 1; i20 < 6; i20++) grain 4 {
      int a21[3];
    }
  }
  x18 = cilk_spawn f1(3, x18);
  return 100;
}
",
        args: &[9],
        cost: 1088,
    },
];
